#![tactic(auto)]

// Traps: their table, and the nearest one below a row.
pub mod nearest;
pub mod table;
