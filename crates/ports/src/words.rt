//! The words of a text, and the numbers that they spell.
ghost use Rattle.std.specs.Prelude.{◌≡◌, ◌≤◌, length, position};
ghost use Rattle.std.specs.List.{before_first};
ghost use Rattle.ports.specs.Words.{blank, solid, magnitude_of, number_of, malformed_in};

use crate::faults::Malformed;

/// The largest number of 32 bits.
const LARGEST: u32 = 2_147_483_647;

/// How far the least number of 32 bits is below zero.
const DEEPEST: u32 = 2_147_483_648;

fn is_blank(b: u8) -> bool
    ensures { result ≡ blank b }
{
    matches!(b, b' ' | b'\t' | b'\n' | b'\r')
}

/// The offset of the first byte that is no blank.
fn first_solid(rest: &[u8]) -> Option<usize>
    ensures { result ≡ position solid rest.now }
{
    rest.iter().position(|b| !is_blank(*b))
}

/// The bytes up to the first blank.
fn first_piece(rest: &[u8]) -> &[u8]
    ensures { result.now ≡ before_first blank rest.now }
{
    let end = rest.iter().take_while(|b| !is_blank(**b)).count();
    &rest[..end]
}

/// A word of a text.
#[derive(Clone, Copy)]
pub struct Word<'t> {
    pub bytes: &'t [u8],
    /// The offset of its first byte in the text.
    pub place: usize,
}

/// The words of a text from a place on.
#[derive(Clone, Copy)]
pub struct Words<'t> {
    pub text: &'t [u8],
    pub place: usize,
    ghost within: { place ≤ length text.now },
}

impl<'t> Iterator for Words<'t> {
    ghost use Rattle.std.specs.Iterator.{YieldsFirstBy, item_count};
    ghost use Rattle.ports.specs.Words.{words_from};

    type Item = Word<'t>;

    ghost next_gives = { YieldsFirstBy (λ w. (w.place, w.bytes.now)) (λ s. words_from s.place s.text.now) };

    ghost remaining = { item_count (λ s. words_from s.place s.text.now) };

    fn next(&mut self) -> Option<Word<'t>> {
        let rest = &self.text[self.place..];
        let blanks = first_solid(rest)?;
        let bytes = first_piece(&rest[blanks..]);
        let place = self.place + blanks;
        self.place = place + bytes.len();
        Some(Word { bytes, place })
    }
}

/// The number that digits spell, one at least, if it is at most `most`.
fn magnitude(digits: &[u8], most: u32) -> Option<u32>
    ensures { result ≡ magnitude_of most digits.now }
{
    if digits.is_empty() {
        return None;
    }
    let mut value: u32 = 0;
    for b in digits {
        if !b.is_ascii_digit() {
            return None;
        }
        if value > most / 10 {
            return None;
        }
        value = (value * 10).checked_add(u32::from(*b - b'0'))?;
    }
    Some(value).filter(|n| *n <= most)
}

/// The number that a word spells: a `+` is no part of one.
pub fn number(word: &[u8]) -> Option<i32>
    ensures { result ≡ number_of word.now }
{
    if let Some(digits) = word.strip_prefix(b"-") {
        let n = magnitude(digits, DEEPEST)?;
        return Some(-i64::from(n) as i32);
    }
    let n = magnitude(word, LARGEST)?;
    Some(n as i32)
}

/// The first word of a text that spells no number.
pub fn first_malformed(text: &[u8]) -> Option<Malformed>
    ensures { result ≡ malformed_in 0 text.now }
{
    Words { text, place: 0 }
        .find(|word| number(word.bytes).is_none())
        .map(|word| Malformed { place: word.place })
}
