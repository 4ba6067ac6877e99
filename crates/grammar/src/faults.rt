//! Why a text does not follow a grammar.
ghost use Rattle.grammar.specs.Faults.{grammar_number};

use refusals::Fault;
use text::tokens::LexFault;

/// What is wrong at a token.
#[derive(Clone, Copy, PartialEq, Eq, Debug)]
pub enum GrammarFault {
    Lexical(LexFault),
    /// It does not fit.
    Misfit,
    /// It would open one construct more than may be open.
    TooDeep,
}

impl Fault for GrammarFault {
    ghost number = { grammar_number };

    fn number(self) -> u8 {
        match self {
            GrammarFault::Lexical(fault) => fault.number(),
            GrammarFault::Misfit => 15,
            GrammarFault::TooDeep => 16,
        }
    }
}
