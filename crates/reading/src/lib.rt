//! A text that is being read into a table: the token ahead, the nodes so far, and the lowest functions of reading.
//!
//! Every function here reads what one piece of the grammar says and writes the nodes of what it read, and its contract says so
//! by the two definitions: what the grammar's reader answers on the tokens to come, and the nodes of a tree. A refusal
//! is the one that the grammar's reader gives.
#![tactic(auto)]

pub mod leaves;
pub mod nodes;
pub mod readers;
pub mod steps;
