#![tactic(auto)]

// Rows are put on the page by text lines and by requests that break; requests that do not break leave the collected line as it is.
pub mod break_requests;
pub mod eject;
pub mod filling;
pub mod no_break_requests;
pub mod page_rows;
pub mod text_calls;
pub mod text_lines;
