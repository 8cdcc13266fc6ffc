#![tactic(auto)]

// What an expanded line does.
pub mod control_lines;
pub mod expanded_lines;
pub mod table_requests;
pub mod table_steps;
