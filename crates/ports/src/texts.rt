//! A port over bytes: decimals between blanks.
ghost use Rattle.std.specs.Prelude.{◌≡◌, ◌+◌, ◌*◌, ◌/◌, ◌≤◌, [], ◌∷◌, length, take};
ghost use Rattle.ports.specs.Meanings.{open32, write_gives, write_leaves};
ghost use Rattle.ports.specs.Spellings.{spellings, ReadBack};
ghost use Rattle.ports.specs.Words.{numbers_in, malformed_in};

use crate::decimals::{Output, WIDEST};
use crate::faults::{Malformed, PortFault};
use crate::interface::Port;
use crate::words::{Words, first_malformed, number};

/// Reads the words of one slice of bytes, and writes into another. What waits ends before the first malformed word.
#[derive(Drop)]
pub struct TextPort<'i, 'o> {
    words: Words<'i>,
    output: Output<'o>,
    room: usize,
    ghost roomy: { output.used + 12 * room ≤ length output.bytes.now },
    ghost wrote: { spellings (numbers_in (take output.used output.bytes.now)) ≡ take output.used output.bytes.now },
}

impl<'i, 'o> TextPort<'i, 'o> {
    ghost use Rattle.ports.specs.Texts.{text_meaning, Spelt};

    /// The numbers of the input wait, nothing is written, and there is room for a number in each twelve bytes.
    pub fn over(input: &'i [u8], output: &'o mut [u8]) -> TextPort<'i, 'o>
        ensures meaning { text_meaning result ≡ open32 (numbers_in input.now) [] (length output.old / 12) }
        ensures input { result.words.text.now ≡ input.now }
        ensures holds { result.output.bytes.ghost_name ≡ output.entry.ghost_name }
        ensures again { ReadBack }
    {
        let room = output.len() / WIDEST;
        TextPort {
            words: Words {
                text: input,
                place: 0,
            },
            output: Output {
                bytes: output,
                used: 0,
            },
            room,
        }
    }

    /// The first word of the whole input that spells no number.
    pub fn malformed(&self) -> Option<Malformed>
        ensures { result ≡ malformed_in 0 self.now.words.text.now }
    {
        first_malformed(self.words.text)
    }

    /// The bytes written: the spellings of the numbers written, one after another.
    pub fn written(&self) -> &[u8]
        ensures { result.now ≡ spellings (text_meaning self.now).written }
    {
        &self.output.bytes[..self.output.used]
    }

    /// Writes a number as decimal and line feed into the unused rest of the output, and touches no other byte.
    pub fn put(&mut self, n: i32) -> Result<(), PortFault>
        ensures gives { result ≡ write_gives (text_meaning self.old) n }
        ensures leaves { text_meaning self.new ≡ write_leaves (text_meaning self.old) n }
        ensures holds { self.new.output.bytes.ghost_name ≡ self.old.output.bytes.ghost_name }
        ensures input { self.new.words ≡ self.old.words }
        ensures spelt { Spelt self.old n result self.new }
    {
        if self.room == 0 {
            return Err(PortFault::NoRoom(n));
        }
        self.room -= 1;
        self.output.put(n);
        Ok(())
    }
}

impl Port for TextPort<'_, '_> {
    ghost use Rattle.ports.specs.Texts.{text_meaning};

    ghost meaning = { text_meaning };

    ghost lent = { λ s. s.output.bytes.ghost_name ∷ [] };

    fn read(&mut self) -> Result<i32, PortFault> {
        let mut words = self.words;
        let word = words.next().ok_or(PortFault::NoneWaits)?;
        let n = number(word.bytes).ok_or(PortFault::NoneWaits)?;
        self.words = words;
        Ok(n)
    }

    fn write(&mut self, n: i32) -> Result<(), PortFault> {
        self.put(n)
    }
}
