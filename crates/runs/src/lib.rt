// Bytes that go over as they are: how far those of a text stand for themselves, and their writing into the part of a buffer that is
// lent.
#![tactic(auto)]

pub mod output;
pub mod plain;
pub mod search;
