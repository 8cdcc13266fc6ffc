#![tactic(auto)]

// A record as words for C, and back.
pub mod decoding;
pub mod encoding;
pub mod places;
