#![tactic(auto)]

// The position on a page, and the traps that are sprung as it moves down.
pub mod position;
pub mod springs;
