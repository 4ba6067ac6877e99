//! Grammars of which one token ahead tells what comes.
//!
//! A grammar is data: tokens of a class, one after another, one or the other, any number, and what a token opens one level
//! further in. What a grammar's reader answers is defined for all of them at once, and so are its trees and what they spell.
//! Where the check `told` holds of a grammar, its reader accepts exactly what its trees spell, and each in one way only.
//!
//! The code here gives tokens their classes.
#![tactic(auto)]

pub mod classing;
pub mod faults;
