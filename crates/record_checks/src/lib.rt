#![tactic(auto)]

// The checks of a record that a caller hands in.
pub mod soundness;
pub mod state_limits;
