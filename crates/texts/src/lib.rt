#![tactic(auto)]

// Macros and strings: their table, what removes and defines them, and the lines of a macro.
pub mod columns;
pub mod definitions;
pub mod lines;
pub mod removal;
pub mod table;
