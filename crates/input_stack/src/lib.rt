#![tactic(auto)]

// The input stack: its items as numbers, and the stack of them.
pub mod frames;
pub mod stack;
