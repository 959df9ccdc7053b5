#![tactic(auto)]
// What bench/ times beside the public calls, which have their names in `library`: core functions, for a program in another language to call.
pub mod asks;
pub mod direct;
