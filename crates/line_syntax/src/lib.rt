#![tactic(auto)]

// What kind of line a line is: text or control, its name and its condition.
pub mod conditions;
pub mod lines;
pub mod request_names;
