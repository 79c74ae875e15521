// The symbols of a text: its flags, and what stands at a place of it.
#![tactic(auto)]

pub mod bytes;
mod codes;
pub mod flags;
pub mod forms;
pub mod symbols;
