#![tactic(auto)]

// The settings of lines and pages, and the requests that change them.
pub mod layout;
pub mod lengths;
pub mod line_settings;
pub mod page_settings;
