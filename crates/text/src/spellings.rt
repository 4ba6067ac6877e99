//! Keywords and signs, each with its spelling.
ghost use Rattle.std.specs.Prelude.{◌≡◌, ℕ, List};
ghost use Rattle.text.specs.Spellings.{spelled_keyword, spelled_sign, whose, keyword_of, sign_of};

/// What is spelled in one way only.
pub trait Spelled: Copy {
    ghost spelled: { Self → List ℕ };

    fn spelling(self) -> &'static [u8]
        ensures { result.now ≡ spelled self };
}

/// The words that are no names.
#[derive(Clone, Copy, PartialEq, Eq, Debug)]
pub enum Keyword {
    Program,
    Function,
    End,
    Var,
    Begin,
    Forward,
    If,
    Then,
    Else,
    Fi,
    While,
    Do,
    Od,
    Write,
    Read,
    Add,
    To,
    Remove,
    From,
    Return,
    True,
    False,
    Min,
    Max,
    In,
    Int,
    Bool,
    Iset,
    Void,
}

impl Spelled for Keyword {
    ghost spelled = { spelled_keyword };

    fn spelling(self) -> &'static [u8] {
        match self {
            Keyword::Program => b"program",
            Keyword::Function => b"function",
            Keyword::End => b"end",
            Keyword::Var => b"var",
            Keyword::Begin => b"begin",
            Keyword::Forward => b"forward",
            Keyword::If => b"if",
            Keyword::Then => b"then",
            Keyword::Else => b"else",
            Keyword::Fi => b"fi",
            Keyword::While => b"while",
            Keyword::Do => b"do",
            Keyword::Od => b"od",
            Keyword::Write => b"write",
            Keyword::Read => b"read",
            Keyword::Add => b"add",
            Keyword::To => b"to",
            Keyword::Remove => b"remove",
            Keyword::From => b"from",
            Keyword::Return => b"return",
            Keyword::True => b"true",
            Keyword::False => b"false",
            Keyword::Min => b"min",
            Keyword::Max => b"max",
            Keyword::In => b"in",
            Keyword::Int => b"int",
            Keyword::Bool => b"bool",
            Keyword::Iset => b"iset",
            Keyword::Void => b"void",
        }
    }
}

/// The signs, those of two bytes first.
#[derive(Clone, Copy, PartialEq, Eq, Debug)]
pub enum Sign {
    Becomes,
    AtMost,
    And,
    Or,
    Semicolon,
    Colon,
    Comma,
    Open,
    Close,
    Plus,
    Minus,
    Times,
    Divide,
    Count,
    Equal,
    Less,
    Not,
}

impl Spelled for Sign {
    ghost spelled = { spelled_sign };

    fn spelling(self) -> &'static [u8] {
        match self {
            Sign::Becomes => b":=",
            Sign::AtMost => b"<=",
            Sign::And => b"&&",
            Sign::Or => b"||",
            Sign::Semicolon => b";",
            Sign::Colon => b":",
            Sign::Comma => b",",
            Sign::Open => b"(",
            Sign::Close => b")",
            Sign::Plus => b"+",
            Sign::Minus => b"-",
            Sign::Times => b"*",
            Sign::Divide => b"/",
            Sign::Count => b"#",
            Sign::Equal => b"=",
            Sign::Less => b"<",
            Sign::Not => b"!",
        }
    }
}

const KEYWORDS: [Keyword; 29] = [
    Keyword::Program,
    Keyword::Function,
    Keyword::End,
    Keyword::Var,
    Keyword::Begin,
    Keyword::Forward,
    Keyword::If,
    Keyword::Then,
    Keyword::Else,
    Keyword::Fi,
    Keyword::While,
    Keyword::Do,
    Keyword::Od,
    Keyword::Write,
    Keyword::Read,
    Keyword::Add,
    Keyword::To,
    Keyword::Remove,
    Keyword::From,
    Keyword::Return,
    Keyword::True,
    Keyword::False,
    Keyword::Min,
    Keyword::Max,
    Keyword::In,
    Keyword::Int,
    Keyword::Bool,
    Keyword::Iset,
    Keyword::Void,
];

const SIGNS: [Sign; 17] = [
    Sign::Becomes,
    Sign::AtMost,
    Sign::And,
    Sign::Or,
    Sign::Semicolon,
    Sign::Colon,
    Sign::Comma,
    Sign::Open,
    Sign::Close,
    Sign::Plus,
    Sign::Minus,
    Sign::Times,
    Sign::Divide,
    Sign::Count,
    Sign::Equal,
    Sign::Less,
    Sign::Not,
];

/// The first of `all` that `bytes` spell.
fn spelled_by<S: Spelled>(all: &[S], bytes: &[u8]) -> Option<S>
    ensures { result ≡ whose S.spelled all.now bytes.now }
{
    all.iter().copied().find(|s| s.spelling() == bytes)
}

/// The keyword that a word spells.
pub fn keyword_of(word: &[u8]) -> Option<Keyword>
    ensures { result ≡ keyword_of word.now }
{
    spelled_by(&KEYWORDS, word)
}

/// The sign that the bytes spell.
pub(crate) fn sign_of(bytes: &[u8]) -> Option<Sign>
    ensures { result ≡ sign_of bytes.now }
{
    spelled_by(&SIGNS, bytes)
}
