//! Tokens, and what is no token.
ghost use Rattle.text.specs.Tokens.{fault_number};

use crate::spellings::{Keyword, Sign};
use refusals::Fault;

/// A token; `N` is how a name is held: as a part of the text, and in definitions as its bytes.
#[derive(Clone, Copy, PartialEq, Eq, Debug)]
pub enum Token<N> {
    Word(Keyword),
    Name(N),
    /// The magnitude, at most 2,147,483,648: whether a `-` belongs to it is for the grammar to say.
    Number(u32),
    Sign(Sign),
    End,
}

/// Why no token can be taken, by the number that the refusal is known by.
#[derive(Clone, Copy, PartialEq, Eq, Debug)]
pub enum LexFault {
    NoToken = 11,
    CommentOpen = 12,
    NumberTooLarge = 13,
    NameTooLong = 14,
}

impl Fault for LexFault {
    ghost number = { fault_number };

    fn number(self) -> u8 {
        self as u8
    }
}
