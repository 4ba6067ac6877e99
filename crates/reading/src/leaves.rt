//! What is read as one node, or as a node over a variable.
ghost use Rattle.std.specs.Prelude.{◌≡◌, ℕ, ◌≤◌, pos};
ghost use Rattle.grammar.specs.Grammars.{seq, tok};
ghost use Rattle.grammar.specs.Parsers.{parse_at};
ghost use Rattle.syntax.specs.Nodes.{minus, number_made, inner_made};
ghost use Rattle.syntax.specs.Syntax.{rule, number};
ghost use Rattle.reading.specs.States.{stream_of, Builds, shown, of_node};
ghost use Rattle.reading.specs.Steps.{taken, jointly, blamed, variable_made, bare_made, of_variable_made, positive_made, negative_made};

use crate::nodes::valued;
use crate::readers::{Numbered, Reader};
use grammar::classing::{Asked, TokenClass};
use grammar::faults::GrammarFault;
use table::kinds::Kind;
use table::nodes::Node;
use text::places::Placed;
use text::spellings::Sign;
use text::tokens::{LexFault, Token};

/// The value of a number behind a `-`.
fn below(magnitude: u32) -> i32
    requires { magnitude ≤ 2147483648 }
    ensures { result ≡ minus magnitude }
{
    -i64::from(magnitude) as i32
}

/// A refusal right behind a `-`: a number too large is placed at the `-`.
fn blamed(fault: Placed<GrammarFault>, place: u16) -> Placed<GrammarFault>
    ensures { result ≡ blamed place fault }
{
    match fault.item {
        GrammarFault::Lexical(LexFault::NumberTooLarge) => Placed {
            place: usize::from(place),
            ..fault
        },
        _ => fault,
    }
}

impl Reader<'_, '_> {
    /// A name, read as a variable.
    pub fn variable(&mut self) -> Result<Numbered, Placed<GrammarFault>>
        ensures { Builds variable_made (taken 51 (stream_of self.old)) self.old (shown of_node result) self.new }
    {
        let name = self.name()?;
        Ok(self.record(name.node(Kind::Variable)))
    }

    /// A token, read as a node.
    pub fn bare<C: Asked>(&mut self, class: C, kind: Kind) -> Result<Numbered, Placed<GrammarFault>>
        ensures { Builds (bare_made (C.asked class) kind) (taken (C.asked class) (stream_of self.old)) self.old (shown of_node result) self.new }
    {
        let place = self.take(class)?;
        Ok(self.record(Node::bare(kind, place)))
    }

    /// A token and a variable: a node over the variable, at the token.
    pub fn of_variable<C: Asked>(
        &mut self,
        class: C,
        kind: Kind,
    ) -> Result<Numbered, Placed<GrammarFault>>
        ensures { (d : ℕ) → Builds (of_variable_made d (C.asked class) kind) (parse_at rule d (seq (tok (C.asked class)) (tok 51)) (stream_of self.old)) self.old (shown of_node result) self.new }
    {
        let place = self.take(class)?;
        let variable = self.variable()?;
        Ok(self.record(Node {
            first: variable.number,
            ..Node::bare(kind, place)
        }))
    }

    /// A number that stands alone.
    fn positive(&mut self) -> Result<Numbered, Placed<GrammarFault>>
        ensures { Builds positive_made (taken 52 (stream_of self.old)) self.old (shown of_node result) self.new }
    {
        let Token::Number(magnitude) = self.token else {
            return Err(self.misfit());
        };
        let place = self.take(TokenClass::Number)?;
        Ok(self.record(valued(place, magnitude as i32)))
    }

    /// A `-` and a number.
    fn negative(&mut self) -> Result<Numbered, Placed<GrammarFault>>
        ensures { Builds negative_made (jointly (stream_of self.old)) self.old (shown of_node result) self.new }
    {
        let ahead = self.place;
        let place = self
            .take(TokenClass::Sign(Sign::Minus))
            .map_err(|fault| blamed(fault, ahead))?;
        let Token::Number(magnitude) = self.token else {
            return Err(self.misfit());
        };
        self.one_of(&[TokenClass::Number, TokenClass::Large])?;
        Ok(self.record(valued(place, below(magnitude))))
    }

    /// A number, with a `-` or without.
    pub fn number(&mut self) -> Result<Numbered, Placed<GrammarFault>>
        ensures { (d : ℕ) → Builds (number_made (inner_made d)) (parse_at rule d number (stream_of self.old)) self.old (shown of_node result) self.new }
    {
        if self.class() == TokenClass::Number {
            self.positive()
        } else {
            self.negative()
        }
    }
}
