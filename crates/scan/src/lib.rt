#![tactic(auto)]

// The scan of a line: escapes are read, and what they stand for is written.
pub mod arguments;
pub mod escapes;
pub mod expansion;
pub mod output;
