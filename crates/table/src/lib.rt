//! The node table: what a record is, the kinds of nodes, the types, and the limits.
//!
//! A table is lent by the caller, 2 to 4,096 records of 16 bytes. Record 0 and all records after the last node are zero. The
//! numbers of kinds and types are fixed, and each is given once, by a definition that contracts cite.
#![tactic(auto)]

pub mod kinds;
pub mod nodes;
