//! Reading instructions.
//!
//! What an instruction is read as, and how a text that is none is refused, is what the grammar's reader says; the nodes
//! written are those of the tree. `allowed` is how many constructs may still be opened.
#![tactic(auto)]

pub mod blocks;
pub mod simple;
