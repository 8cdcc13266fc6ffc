#![tactic(auto)]

// Number registers: their table, what a reference to one stands for, and the checks of a table that is lent.
pub mod checks;
pub mod columns;
pub mod interpolation;
pub mod table;
