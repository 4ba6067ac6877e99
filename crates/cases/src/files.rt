//! A case file, taken apart from its front on: lines `WORD NUMBER`, and after some so many bytes and a line feed.
ghost use Rattle.std.specs.Prelude.{ℕ, List, IfSome, IfOk, MatchOption, length, ◌≡◌};
ghost use Rattle.cases.specs.CaseFiles.{Lined, Announced, HasCase};

use anyhow::Context;
use std::str;

/// What is left of a case file.
#[derive(Clone, Copy)]
pub struct CaseFile<'a> {
    rest: &'a [u8],
}

/// A text with the number of its case, and what it should be taken apart into.
#[derive(Clone, Copy)]
pub struct Case<'a> {
    pub number: usize,
    pub script: &'a [u8],
    pub tokens: &'a [u8],
}

impl<'a> CaseFile<'a> {
    pub fn new(file: &'a [u8]) -> CaseFile<'a>
        ensures { result.rest.now ≡ file.now }
    {
        CaseFile { rest: file }
    }

    /// Takes a line, and gives it without its line feed.
    fn line(&mut self) -> Option<&'a [u8]>
        ensures { IfSome result (λ l. Lined self.old.rest.now l.now self.new.rest.now) }
    {
        let end = self.rest.iter().position(|b| *b == b'\n')?;
        let line = &self.rest[..end];
        self.rest = &self.rest[end + 1..];
        Some(line)
    }

    /// Takes a line that is the word and a number.
    fn number(&mut self, word: &[u8]) -> Option<usize>
        ensures { IfSome result (λ n. (l : List ℕ) × Lined self.old.rest.now l self.new.rest.now) }
    {
        let digits = self.line()?.strip_prefix(word)?;
        str::from_utf8(digits).ok()?.parse::<usize>().ok()
    }

    /// Takes the bytes after a line that is the word and how many they are.
    fn part(&mut self, word: &[u8]) -> Option<&'a [u8]>
        ensures { IfSome result (λ p. Announced self.old.rest.now p.now self.new.rest.now) }
    {
        let len = self.number(word)?;
        let (bytes, rest) = self.rest.split_at_checked(len)?;
        self.rest = rest.strip_prefix(b"\n")?;
        Some(bytes)
    }

    /// Takes the next case, if there is one.
    pub fn next_case(&mut self) -> anyhow::Result<Option<Case<'a>>>
        ensures { IfOk result (λ o. MatchOption o (length self.new.rest.now ≡ 0) (λ c. HasCase self.old.rest.now c.script.now c.tokens.now self.new.rest.now)) }
    {
        if self.rest.is_empty() {
            return Ok(None);
        }
        let number = self
            .number(b"case ")
            .context("what follows the last case is no case")?;
        let script = self.part(b"script ").context("a case without a script")?;
        let tokens = self.part(b"tokens ").context("a case without tokens")?;
        Ok(Some(Case {
            number,
            script,
            tokens,
        }))
    }
}
