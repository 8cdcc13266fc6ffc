#![tactic(auto)]

// Words, the line that is collected from them, and the rows that are written.
pub mod collected;
pub mod rows;
pub mod unfilled;
pub mod words;
