// The arithmetic of expressions: the operators, and what each makes of signed 32-bit numbers.
#![tactic(auto)]

pub mod operators;
pub mod values;
