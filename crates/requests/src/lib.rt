#![tactic(auto)]

// The requests that change a table: nr, wh, and rm, de and ds.
pub mod definitions;
pub mod nr;
pub mod wh;
