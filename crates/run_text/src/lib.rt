#![tactic(auto)]
// The text that the program `run_calls` reads, as numbers, and the text that it writes: what the public calls answer.
pub mod numbers;
pub mod writing;
