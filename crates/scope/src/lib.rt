#![tactic(auto)]
// Document 01 as definitions: specs/ holds each of its sentences, proofs/ the laws that a reader expects of them. Limits and counts stand here
// for the code, under the names that specs/Limits has; the refusals' numbers are crate refusals'.
pub const MAX_NODES: usize = 4096;

pub const MAX_CHILDREN: usize = 16384;

pub const MAX_WIDTH: usize = 255;

pub const MAX_LIST: usize = 255;

pub const MAX_TEXT: usize = 65535;

pub const MAX_RECORDS: usize = 1024;

pub const MAX_NAME: usize = 255;

pub const NONE: u32 = 4294967295;

pub const MAX_REPORTS: u64 = 18446744073709551615;

pub const MAX_STATES: usize = 8;

pub const MAX_STATE_NAME: usize = 255;

pub const MAX_LINE: usize = 255;

pub const MAX_DIGITS: usize = 4;

pub const SHEET_NODES: usize = 256;

pub const SHEET_CHILDREN: usize = 1024;

pub const SHEET_TEXT: usize = 4096;
