//! The state of reading.
ghost use Rattle.std.specs.Prelude.{◌≡◌, ◌<◌, ◌≤◌, false, length};
ghost use Rattle.text.specs.Tokens.{is_end, lexeme};
ghost use Rattle.reading.specs.Sizes.{Fits};

use grammar::classing::TokenClass;
use table::nodes::Node;
use text::lexing::Lexer;
use text::tokens::Token;

/// A text that is being read into a table.
#[derive(Drop)]
pub struct Reader<'s, 't> {
    pub lexer: Lexer<'s>,
    /// The token ahead, and its place.
    pub token: Token<&'s [u8]>,
    pub place: u16,
    pub table: &'t mut [Node],
    /// How many nodes there are, whether or not the table has room for them.
    pub count: u16,
    ghost short: { length lexer.source.now ≤ 16384 },
    ghost few: { count ≤ place },
    ghost behind: { place ≤ lexer.place },
    ghost onward: { is_end (lexeme token) ≡ false → place < lexer.place },
    ghost fits: { Fits (lexeme token) },
}

/// A node that was written.
#[derive(Clone, Copy, PartialEq, Eq, Debug)]
pub struct Numbered {
    pub number: u16,
    pub place: u16,
}

/// A name, as a record has it.
#[derive(Clone, Copy, PartialEq, Eq, Debug)]
pub struct Name {
    pub length: u8,
    pub place: u16,
}

/// A token of one of several classes.
#[derive(Clone, Copy, PartialEq, Eq, Debug)]
pub struct Mark {
    pub class: TokenClass,
    pub place: u16,
}
