//! Reading expressions.
//!
//! Operators stand in layers: the loosest are `&&` and `||`, then `!`, the comparisons, sums and products, and each is joined to the
//! left. What an expression is read as, and how a text that is none is refused, is what the grammar's reader says; the
//! nodes written are those of the tree. `allowed` is how many constructs may still be opened.
#![tactic(auto)]

pub mod layers;
pub mod operands;
