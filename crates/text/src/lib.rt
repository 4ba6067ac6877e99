//! The text of a script, taken apart into tokens.
//!
//! A [`lexing::Lexer`] is a window on a text that moves from token to token. Each step gives the longest token that
//! begins after the blanks and comments, with its place, or a fault with its place; and it gives what the definitions
//! say, of every text and from every place. A whole text is its tokens one after another, and in one way only.
//!
//! Nothing is copied and nothing is allocated: a name is a part of the text. One pass, constant stack: a byte is looked at
//! a bounded number of times, a word is compared with 29 spellings and a sign with 34 at most.
#![tactic(auto)]

pub mod classes;
pub mod lexing;
pub mod places;
pub mod spellings;
pub mod tokens;
