//! Instructions that hold no other.
ghost use Rattle.std.specs.Prelude.{ℕ};
ghost use Rattle.grammar.specs.Parsers.{parse_at};
ghost use Rattle.grammar.specs.TokenClasses.{class_number};
ghost use Rattle.syntax.specs.Syntax.{rule};
ghost use Rattle.reading.specs.States.{stream_of, Builds, shown, of_node};
ghost use Rattle.instructions.specs.Simple.{of_expression_gram, of_expression_made, read_gram, read_made, with_set_gram, with_set_made, assignment_gram, assignment_made, evaluation_gram, evaluation_made, wordless_gram, wordless_made};

use expressions::operands::expression;
use grammar::classing::TokenClass;
use grammar::faults::GrammarFault;
use reading::readers::{Numbered, Reader};
use table::kinds::Kind;
use table::nodes::Node;
use text::places::Placed;
use text::spellings::{Keyword, Sign};

/// A word and an expression: a node over the expression, at the word.
pub fn of_expression(
    reader: &mut Reader<'_, '_>,
    allowed: u8,
    class: TokenClass,
    kind: Kind,
) -> Result<Numbered, Placed<GrammarFault>>
    ensures { Builds (of_expression_made allowed (class_number class) kind) (parse_at rule allowed (of_expression_gram (class_number class)) (stream_of reader.old)) reader.old (shown of_node result) reader.new }
{
    let place = reader.take(class)?;
    let inner = expression(reader, allowed)?;
    reader.take(TokenClass::Sign(Sign::Semicolon))?;
    Ok(reader.record(Node {
        first: inner.number,
        ..Node::bare(kind, place)
    }))
}

/// A variable that a number is read into.
pub fn read_into(reader: &mut Reader<'_, '_>) -> Result<Numbered, Placed<GrammarFault>>
    ensures { (d : ℕ) → Builds (read_made d) (parse_at rule d read_gram (stream_of reader.old)) reader.old (shown of_node result) reader.new }
{
    let place = reader.take(TokenClass::Word(Keyword::Read))?;
    let variable = reader.variable()?;
    reader.take(TokenClass::Sign(Sign::Semicolon))?;
    Ok(reader.record(Node {
        first: variable.number,
        ..Node::bare(Kind::Read, place)
    }))
}

/// A word, an expression, a second word and a set: a node over the expression and the set, at the first word.
pub fn with_set(
    reader: &mut Reader<'_, '_>,
    allowed: u8,
    class: TokenClass,
    link: TokenClass,
    kind: Kind,
) -> Result<Numbered, Placed<GrammarFault>>
    ensures { Builds (with_set_made allowed (class_number class) (class_number link) kind) (parse_at rule allowed (with_set_gram (class_number class) (class_number link)) (stream_of reader.old)) reader.old (shown of_node result) reader.new }
{
    let place = reader.take(class)?;
    let value = expression(reader, allowed)?;
    reader.take(link)?;
    let set = reader.variable()?;
    reader.take(TokenClass::Sign(Sign::Semicolon))?;
    Ok(reader.record(Node {
        first: value.number,
        second: set.number,
        ..Node::bare(kind, place)
    }))
}

/// An assignment: a node over the variable and the value, at the `:=`.
fn assignment(reader: &mut Reader<'_, '_>, allowed: u8) -> Result<Numbered, Placed<GrammarFault>>
    ensures { Builds (assignment_made allowed) (parse_at rule allowed assignment_gram (stream_of reader.old)) reader.old (shown of_node result) reader.new }
{
    let variable = reader.variable()?;
    let place = reader.take(TokenClass::Sign(Sign::Becomes))?;
    let value = expression(reader, allowed)?;
    reader.take(TokenClass::Sign(Sign::Semicolon))?;
    Ok(reader.record(Node {
        first: variable.number,
        second: value.number,
        ..Node::bare(Kind::Assign, place)
    }))
}

/// An expression that stands alone: a node over it, at its place.
fn evaluation(reader: &mut Reader<'_, '_>, allowed: u8) -> Result<Numbered, Placed<GrammarFault>>
    ensures { Builds (evaluation_made allowed) (parse_at rule allowed evaluation_gram (stream_of reader.old)) reader.old (shown of_node result) reader.new }
{
    let value = expression(reader, allowed)?;
    reader.take(TokenClass::Sign(Sign::Semicolon))?;
    Ok(reader.record(Node {
        first: value.number,
        ..Node::bare(Kind::Expression, value.place)
    }))
}

/// What no word begins: an assignment, or an expression that stands alone.
pub fn wordless(reader: &mut Reader<'_, '_>, allowed: u8) -> Result<Numbered, Placed<GrammarFault>>
    ensures { Builds (wordless_made allowed) (parse_at rule allowed wordless_gram (stream_of reader.old)) reader.old (shown of_node result) reader.new }
{
    if reader.followed(TokenClass::Name, TokenClass::Sign(Sign::Becomes)) {
        assignment(reader, allowed)
    } else {
        evaluation(reader, allowed)
    }
}
