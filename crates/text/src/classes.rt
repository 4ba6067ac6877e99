//! The class of each byte.
ghost use Rattle.std.specs.Prelude.{◌≡◌};
ghost use Rattle.text.specs.Classes.{class_of};

use ByteClass::{Blank as B, Brace as C, Digit as D, Letter as L, Other as O, Sign as S};

/// What a byte may be part of.
#[derive(Clone, Copy, PartialEq, Eq, Debug)]
pub enum ByteClass {
    /// It begins no token and stands only in a comment.
    Other,
    /// Space, tab, line feed, carriage return.
    Blank,
    /// `A` to `Z` and `a` to `z`.
    Letter,
    /// `0` to `9`.
    Digit,
    /// A byte of a sign.
    Sign,
    /// `{`, which begins a comment.
    Brace,
}

/// The class of each byte, thirty-two to a row.
static CLASSES: [ByteClass; 256] = [
    O, O, O, O, O, O, O, O, O, B, B, O, O, B, O, O, O, O, O, O, O, O, O, O, O, O, O, O, O, O, O, O,
    B, S, O, S, O, O, S, O, S, S, S, S, S, S, O, S, D, D, D, D, D, D, D, D, D, D, S, S, S, S, O, O,
    O, L, L, L, L, L, L, L, L, L, L, L, L, L, L, L, L, L, L, L, L, L, L, L, L, L, L, O, O, O, O, O,
    O, L, L, L, L, L, L, L, L, L, L, L, L, L, L, L, L, L, L, L, L, L, L, L, L, L, L, C, S, O, O, O,
    O, O, O, O, O, O, O, O, O, O, O, O, O, O, O, O, O, O, O, O, O, O, O, O, O, O, O, O, O, O, O, O,
    O, O, O, O, O, O, O, O, O, O, O, O, O, O, O, O, O, O, O, O, O, O, O, O, O, O, O, O, O, O, O, O,
    O, O, O, O, O, O, O, O, O, O, O, O, O, O, O, O, O, O, O, O, O, O, O, O, O, O, O, O, O, O, O, O,
    O, O, O, O, O, O, O, O, O, O, O, O, O, O, O, O, O, O, O, O, O, O, O, O, O, O, O, O, O, O, O, O,
];

/// The class of a byte.
pub fn class_of(b: u8) -> ByteClass
    ensures { result ≡ class_of b }
{
    CLASSES[usize::from(b)]
}
