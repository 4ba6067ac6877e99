//! The syntax of scripts: their grammar, the nodes that each stands for, and what is promised of both.
#![tactic(auto)]

pub mod promises;
