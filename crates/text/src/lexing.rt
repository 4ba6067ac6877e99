//! The lexer: a window on a text that moves from token to token.
ghost use Rattle.std.specs.Prelude.{◌≡◌, ◌<◌, ◌≤◌, length, drop, None, MatchResult};
ghost use Rattle.std.specs.List.{prefix_len};
ghost use Rattle.text.specs.Spellings.{keyword_of, sign_at};
ghost use Rattle.text.specs.Laws.{Stepped, Counted};
ghost use Rattle.text.specs.Lexings.{lexed, counted};
ghost use Rattle.text.specs.Lexemes.{blank, part, magnitude_of, word_means, number_means};
ghost use Rattle.text.specs.Steps.{gap, answered, front, meant, taken};

use crate::classes::{ByteClass, class_of};
use crate::places::Placed;
use crate::spellings::{Sign, Spelled, keyword_of, sign_of};
use crate::tokens::{LexFault, Token};

/// The most bytes that a text may have.
pub const TEXT_LIMIT: usize = 16_384;

/// The largest magnitude that a number may have.
const LARGEST: u32 = 2_147_483_648;

/// The most bytes that a name may have.
const LONGEST: usize = 24;

/// Whether a word goes on with the byte.
fn is_part(b: u8) -> bool
    ensures { result ≡ part b }
{
    matches!(class_of(b), ByteClass::Letter | ByteClass::Digit)
}

/// How many blanks stand at the front.
fn blanks(rest: &[u8]) -> usize
    ensures run { result ≡ prefix_len blank rest.now }
    ensures within { result ≤ length rest.now }
{
    rest.iter()
        .take_while(|b| class_of(**b) == ByteClass::Blank)
        .count()
}

/// The number that decimal digits spell, if it is at most 2,147,483,648.
fn magnitude(digits: &[u8]) -> Option<u32>
    ensures { result ≡ magnitude_of digits.now }
{
    let mut value: u32 = 0;
    for b in digits {
        if value > LARGEST / 10 {
            return None;
        }
        value = value * 10 + u32::from(b.saturating_sub(b'0'));
    }
    Some(value).filter(|n| *n <= LARGEST)
}

/// The keyword or the name that a word is.
fn word<'a>(bytes: &'a [u8]) -> Result<Token<&'a [u8]>, LexFault>
    ensures { meant result ≡ word_means (keyword_of bytes.now) bytes.now }
{
    match keyword_of(bytes) {
        Some(keyword) => Ok(Token::Word(keyword)),
        None if bytes.len() <= LONGEST => Ok(Token::Name(bytes)),
        None => Err(LexFault::NameTooLong),
    }
}

/// The number that decimal digits spell.
fn number<'a>(digits: &'a [u8]) -> Result<Token<&'a [u8]>, LexFault>
    ensures { meant result ≡ number_means (magnitude_of digits.now) }
{
    let value = magnitude(digits).ok_or(LexFault::NumberTooLarge)?;
    Ok(Token::Number(value))
}

/// The longest sign at the front.
fn sign_at(rest: &[u8]) -> Option<Sign>
    requires { 0 < length rest.now }
    ensures { result ≡ sign_at rest.now }
{
    let two = rest.len().min(2);
    sign_of(&rest[..two]).or_else(|| sign_of(&rest[..1]))
}

/// The token at the front, with the number of its bytes.
fn token_at<'a>(rest: &'a [u8]) -> Result<(Token<&'a [u8]>, usize), LexFault>
    requires { 0 < length rest.now }
    ensures { taken result ≡ front rest.now }
{
    match class_of(rest[0]) {
        ByteClass::Letter => {
            let n = rest.iter().take_while(|b| is_part(**b)).count();
            word(&rest[..n]).map(|token| (token, n))
        }
        ByteClass::Digit => {
            let n = rest
                .iter()
                .take_while(|b| class_of(**b) == ByteClass::Digit)
                .count();
            number(&rest[..n]).map(|token| (token, n))
        }
        ByteClass::Sign => {
            let sign = sign_at(rest).ok_or(LexFault::NoToken)?;
            Ok((Token::Sign(sign), sign.spelling().len()))
        }
        ByteClass::Other | ByteClass::Blank | ByteClass::Brace => Err(LexFault::NoToken),
    }
}

/// A text and a place in it, from which the next token is taken.
#[derive(Clone, Copy)]
pub struct Lexer<'a> {
    source: &'a [u8],
    place: usize,
    ghost within: { place ≤ length source.now },
}

impl<'a> Lexer<'a> {
    /// At the front of a text.
    pub fn new(source: &'a [u8]) -> Lexer<'a>
        ensures source { result.source.now ≡ source.now }
        ensures place { result.place ≡ 0 }
    {
        Lexer { source, place: 0 }
    }

    /// What is left of the text.
    fn rest(&self) -> &'a [u8]
        ensures { result.now ≡ drop self.now.place self.now.source.now }
    {
        &self.source[self.place..]
    }

    /// Moves past blanks and whole comments, and stays at a comment that is left open.
    fn skip_gap(&mut self) -> Result<(), LexFault>
        ensures gap { let reached = gap None (drop self.old.place self.old.source.now) self.old.place in MatchResult result (λ u. reached ≡ Ok self.new.place) (λ f. (f ≡ LexFault.CommentOpen) × (reached ≡ Err self.new.place)) }
        ensures source { self.new.source ≡ self.old.source }
    {
        loop {
            self.place += blanks(self.rest());
            if self.source.get(self.place) != Some(&b'{') {
                return Ok(());
            }
            let close = self.rest().iter().position(|b| *b == b'}');
            self.place += close.ok_or(LexFault::CommentOpen)? + 1;
        }
    }

    /// Takes the next token.
    pub fn next_token(&mut self) -> Result<Placed<Token<&'a [u8]>>, Placed<LexFault>>
        ensures stepped { Stepped self.old.source.now self.old.place (answered result) self.new.place }
        ensures source { self.new.source ≡ self.old.source }
    {
        let skipped = self.skip_gap();
        let place = self.place;
        skipped.map_err(|item| Placed { item, place })?;
        if self.rest().is_empty() {
            return Ok(Placed {
                item: Token::End,
                place,
            });
        }
        let (item, width) = token_at(self.rest()).map_err(|item| Placed { item, place })?;
        self.place += width;
        Ok(Placed { item, place })
    }
}

/// How many tokens a text has.
pub fn count_tokens(source: &[u8]) -> Result<usize, Placed<LexFault>>
    ensures answer { result ≡ counted (lexed source.now) }
    ensures lawful { Counted source.now result }
{
    let mut lexer = Lexer::new(source);
    let mut count = 0;
    loop {
        let token = lexer.next_token()?;
        if let Token::End = token.item {
            return Ok(count);
        }
        count += 1;
    }
}
