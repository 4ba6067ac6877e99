//! Classes of tokens.
ghost use Rattle.std.specs.Prelude.{◌≡◌, ℕ, ◌==◌};
ghost use Rattle.grammar.specs.TokenClasses.{keyword_class, sign_class, class_number, class_of};
ghost use Rattle.text.specs.Tokens.{lexeme};

use text::spellings::{Keyword, Sign};
use text::tokens::Token;

/// The largest number that may stand alone.
const LARGEST_ALONE: u32 = 2_147_483_647;

/// What a grammar sees of a token.
#[derive(Clone, Copy, PartialEq, Eq, Debug)]
pub enum TokenClass {
    End,
    Word(Keyword),
    Sign(Sign),
    Name,
    /// A number that may stand alone.
    Number,
    /// The number that needs a `-` before it.
    Large,
}

impl TokenClass {
    /// The number of the class in a grammar.
    pub fn number(self) -> u8
        ensures { result ≡ class_number self }
    {
        match self {
            TokenClass::End => 0,
            TokenClass::Word(keyword) => keyword_class(keyword),
            TokenClass::Sign(sign) => sign_class(sign),
            TokenClass::Name => 51,
            TokenClass::Number => 52,
            TokenClass::Large => 53,
        }
    }
}

/// What asks for a token of a class: the class, or any number in its place. A number that no class has is no token's.
pub trait Asked: Copy {
    // The number that is asked for.
    ghost asked: { Self → ℕ };

    /// The number that it asks for.
    fn number(self) -> u8
        ensures { result ≡ asked self };

    /// Whether it asks for a class.
    fn is(self, class: TokenClass) -> bool
        ensures { result ≡ (class_number class == asked self) }
    {
        class.number() == self.number()
    }
}

// Classes are compared without their numbers.
impl Asked for TokenClass {
    ghost asked = { class_number };

    fn number(self) -> u8 {
        TokenClass::number(self)
    }

    fn is(self, class: TokenClass) -> bool {
        class == self
    }
}

impl Asked for u8 {
    ghost asked = { λ n. n };

    fn number(self) -> u8 {
        self
    }
}

/// The number of a keyword's class.
pub fn keyword_class(keyword: Keyword) -> u8
    ensures { result ≡ keyword_class keyword }
{
    match keyword {
        Keyword::Program => 1,
        Keyword::Function => 2,
        Keyword::End => 3,
        Keyword::Var => 4,
        Keyword::Begin => 5,
        Keyword::Forward => 6,
        Keyword::If => 7,
        Keyword::Then => 8,
        Keyword::Else => 9,
        Keyword::Fi => 10,
        Keyword::While => 11,
        Keyword::Do => 12,
        Keyword::Od => 13,
        Keyword::Write => 14,
        Keyword::Read => 15,
        Keyword::Add => 16,
        Keyword::To => 17,
        Keyword::Remove => 18,
        Keyword::From => 19,
        Keyword::Return => 20,
        Keyword::True => 21,
        Keyword::False => 22,
        Keyword::Min => 23,
        Keyword::Max => 24,
        Keyword::In => 25,
        Keyword::Int => 26,
        Keyword::Bool => 27,
        Keyword::Iset => 28,
        Keyword::Void => 29,
    }
}

/// The number of a sign's class.
pub fn sign_class(sign: Sign) -> u8
    ensures { result ≡ sign_class sign }
{
    match sign {
        Sign::Becomes => 31,
        Sign::AtMost => 32,
        Sign::And => 33,
        Sign::Or => 34,
        Sign::Semicolon => 35,
        Sign::Colon => 36,
        Sign::Comma => 37,
        Sign::Open => 38,
        Sign::Close => 39,
        Sign::Plus => 40,
        Sign::Minus => 41,
        Sign::Times => 42,
        Sign::Divide => 43,
        Sign::Count => 44,
        Sign::Equal => 45,
        Sign::Less => 46,
        Sign::Not => 47,
    }
}

/// The class of a token.
pub fn token_class(token: Token<&[u8]>) -> TokenClass
    ensures { class_number result ≡ class_of (lexeme token.entry) }
{
    match token {
        Token::Word(keyword) => TokenClass::Word(keyword),
        Token::Name(_) => TokenClass::Name,
        Token::Number(value) if value <= LARGEST_ALONE => TokenClass::Number,
        Token::Number(_) => TokenClass::Large,
        Token::Sign(sign) => TokenClass::Sign(sign),
        Token::End => TokenClass::End,
    }
}
