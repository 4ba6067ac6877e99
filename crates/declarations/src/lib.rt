//! Reading declarations of variables and parameters.
//!
//! What a declaration is read as, and how a text that is none is refused, is what the grammar's reader says; the nodes written
//! are those of the tree.
#![tactic(auto)]

pub mod parameters;
pub mod types;
pub mod variables;
