#![tactic(auto)]

// Numbers: what an operator makes of two values, expressions, and the units of a scale.
pub mod arithmetic;
pub mod expression;
pub mod scales;
