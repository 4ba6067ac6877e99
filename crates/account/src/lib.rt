//! The account that the bench gives of a script.
//!
//! [`screen`] answers, for every script, what the definitions say: how many tokens it has, or why and where it is refused.
//! [`report`] gives the line that the bench prints, byte for byte. Screening takes one pass over the script and no memory;
//! the line is a `String`, since the bench is no part of the craft.
#![tactic(auto)]

ghost use Rattle.std.specs.Prelude.{◌≡◌, IfOk, string_bytes};
ghost use Rattle.account.specs.Accounts.{refusal_number, screened, Screened, line};

use refusals::Fault;
use std::alloc::{AllocError, Global};
use text::lexing::{TEXT_LIMIT, count_tokens};
use text::places::Placed;
use text::tokens::LexFault;

/// Why a script is refused.
#[derive(Clone, Copy, PartialEq, Eq, Debug)]
pub enum Refusal {
    TextTooLong,
    Lexical(LexFault),
}

impl Fault for Refusal {
    ghost number = { refusal_number };

    fn number(self) -> u8 {
        match self {
            Refusal::TextTooLong => 10,
            Refusal::Lexical(fault) => fault.number(),
        }
    }
}

/// Screens a script: it is short enough, and all of it is tokens, so many.
pub fn screen(script: &[u8]) -> Result<usize, Placed<Refusal>>
    ensures answer { result ≡ screened script.now }
    ensures lawful { Screened script.now result }
{
    if script.len() > TEXT_LIMIT {
        return Err(Placed {
            item: Refusal::TextTooLong,
            place: 0,
        });
    }
    count_tokens(script).map_err(|fault| fault.map(Refusal::Lexical))
}

/// The line of account of a script, as the bench prints it.
#[tactic(auto, using(crate::proofs::Lines::one_line))]
pub fn report(heap: Global, script: &[u8]) -> Result<String, AllocError>
    ensures { IfOk result (λ s. string_bytes s ≡ line (screened script.now)) }
{
    match screen(script) {
        Ok(count) => format!(in heap; "tokens {count}\n"),
        Err(refusal) => format!(in heap; "{refusal}\n"),
    }
}

#[cfg(test)]
mod tests {
    use super::*;
    use std::process::Abort;
    use std::test::Fail;

    fn line_of(rt: &(impl Abort + AllocGlobal), script: &[u8], line: &str) -> Result<(), Fail> {
        let found = report(rt.alloc(), script)?;
        assert_eq!(rt; found.as_str(), line);
        Ok(())
    }

    #[test]
    fn lines(rt: HostRuntime) -> Result<(), Fail> {
        line_of(&rt, b"", "tokens 0\n")?;
        line_of(&rt, b"a := 1;", "tokens 4\n")?;
        line_of(&rt, b"a $", "refused 11 2\n")?;
        line_of(&rt, b"a { b", "refused 12 2\n")?;
        line_of(&rt, b"x 2147483649", "refused 13 2\n")?;
        line_of(&rt, b"abcdefghijklmnopqrstuvwxy", "refused 14 0\n")
    }

    #[test]
    fn longest_text(rt: HostRuntime) -> Result<(), Fail> {
        line_of(&rt, &[b';'; 16_384], "tokens 16384\n")?;
        line_of(&rt, &[b';'; 16_385], "refused 10 0\n")?;
        line_of(&rt, &[b'$'; 16_385], "refused 10 0\n")
    }
}
