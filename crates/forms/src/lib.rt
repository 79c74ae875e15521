// What the 26 calls write: the family, base, width and digits of each, and the number that a value's low bits stand for.
#![tactic(auto)]

pub mod calls;
pub mod counts;
pub mod forms;
pub mod size;
