//! Expressions, from the loosest layer to operands.
ghost use Rattle.std.specs.Prelude.{◌≡◌, ℕ};
ghost use Rattle.grammar.specs.Grammars.{nest};
ghost use Rattle.grammar.specs.Parsers.{parse_at};
ghost use Rattle.syntax.specs.Nodes.{over, inner_made, expression_made, comparison_made, negation_made, operand_made, named_made};
ghost use Rattle.syntax.specs.Syntax.{rule, arguments, parentheses, negated, expression, comparison, compared, negation, operand, named};
ghost use Rattle.reading.specs.States.{stream_of, Reads, Builds, shown, of_node, of_list};
ghost use Rattle.expressions.specs.Layers.{layer_gram, layer_made, tighter_gram, tighter_made, turn_gram, turn_made, compared_made_over};
ghost use Rattle.reading.specs.Nests.{nest_made, rule_at};
ghost use Rattle.expressions.specs.Rules.{arguments_gram, arguments_made};

use crate::layers::{Layer, operator_kind};
use grammar::classing::TokenClass;
use grammar::faults::GrammarFault;
use reading::readers::{Numbered, Reader};
use table::kinds::Kind;
use table::nodes::Node;
use text::places::Placed;
use text::spellings::{Keyword, Sign};

/// The classes of the tokens that may begin an expression.
pub const EXPRESSION_START: [TokenClass; 10] = [
    TokenClass::Sign(Sign::Not),
    TokenClass::Number,
    TokenClass::Sign(Sign::Minus),
    TokenClass::Word(Keyword::True),
    TokenClass::Word(Keyword::False),
    TokenClass::Name,
    TokenClass::Word(Keyword::Min),
    TokenClass::Word(Keyword::Max),
    TokenClass::Sign(Sign::Count),
    TokenClass::Sign(Sign::Open),
];

/// The classes of the signs that compare two expressions.
const COMPARISONS: [TokenClass; 3] = [
    TokenClass::Sign(Sign::Equal),
    TokenClass::Sign(Sign::Less),
    TokenClass::Sign(Sign::AtMost),
];

/// The classes of the tokens that may go on a comparison: a sign, or the word between a value and a set.
const COMPARED_START: [TokenClass; 4] = [
    TokenClass::Sign(Sign::Equal),
    TokenClass::Sign(Sign::Less),
    TokenClass::Sign(Sign::AtMost),
    TokenClass::Word(Keyword::In),
];

/// A node over what stands on its left and on its right.
fn joined(kind: Kind, place: u16, left: u16, right: u16) -> Node
    ensures { result ≡ over kind place left right 0 }
{
    Node {
        first: left,
        second: right,
        ..Node::bare(kind, place)
    }
}

/// An expression.
#[cycle(group)]
pub fn expression(
    reader: &mut Reader<'_, '_>,
    allowed: u8,
) -> Result<Numbered, Placed<GrammarFault>>
    ensures { Builds (expression_made (inner_made allowed)) (parse_at rule allowed expression (stream_of reader.old)) reader.old (shown of_node result) reader.new }
{
    layered(reader, Layer::Logic, allowed)
}

/// Operands with the operators of a layer between them.
#[cycle(group)]
fn layered(
    reader: &mut Reader<'_, '_>,
    layer: Layer,
    allowed: u8,
) -> Result<Numbered, Placed<GrammarFault>>
    ensures { Builds (layer_made layer (inner_made allowed)) (parse_at rule allowed (layer_gram layer) (stream_of reader.old)) reader.old (shown of_node result) reader.new }
{
    let mut left = tighter(reader, layer, allowed)?;
    while layer.signs().contains(&reader.class()) {
        left = operation(reader, layer, left.number, allowed)?;
    }
    Ok(left)
}

/// An operator of a layer and its right operand: a node over that and the left one.
#[cycle(group)]
fn operation(
    reader: &mut Reader<'_, '_>,
    layer: Layer,
    left: u16,
    allowed: u8,
) -> Result<Numbered, Placed<GrammarFault>>
    ensures { Builds (turn_made layer (inner_made allowed) left) (parse_at rule allowed (turn_gram layer) (stream_of reader.old)) reader.old (shown of_node result) reader.new }
{
    let sign = reader.one_of(layer.signs())?;
    let right = tighter(reader, layer, allowed)?;
    let node = joined(operator_kind(sign.class), sign.place, left, right.number);
    Ok(reader.record(node))
}

/// What stands between the operators of a layer.
#[cycle(group)]
fn tighter(
    reader: &mut Reader<'_, '_>,
    layer: Layer,
    allowed: u8,
) -> Result<Numbered, Placed<GrammarFault>>
    ensures { Builds (tighter_made layer (inner_made allowed)) (parse_at rule allowed (tighter_gram layer) (stream_of reader.old)) reader.old (shown of_node result) reader.new }
{
    match layer {
        Layer::Product => operand(reader, allowed),
        Layer::Sum => layered(reader, Layer::Product, allowed),
        Layer::Logic => negation(reader, allowed),
    }
}

/// A comparison, with a `!` before it or without.
#[cycle(group)]
fn negation(reader: &mut Reader<'_, '_>, allowed: u8) -> Result<Numbered, Placed<GrammarFault>>
    ensures { Builds (negation_made (inner_made allowed)) (parse_at rule allowed negation (stream_of reader.old)) reader.old (shown of_node result) reader.new }
{
    if reader.class() == TokenClass::Sign(Sign::Not) {
        denial(reader, allowed)
    } else {
        comparison(reader, allowed)
    }
}

/// A `!` and what it denies.
#[cycle(group)]
fn denial(reader: &mut Reader<'_, '_>, allowed: u8) -> Result<Numbered, Placed<GrammarFault>>
    ensures { Builds (nest_made allowed 47 negated) (parse_at rule allowed (nest 47 negated) (stream_of reader.old)) reader.old (shown of_node result) reader.new }
{
    let place = reader.open(TokenClass::Sign(Sign::Not), allowed)?;
    let inner = negation(reader, allowed - 1)?;
    Ok(reader.record(Node {
        first: inner.number,
        ..Node::bare(Kind::Not, place)
    }))
}

/// Sums with comparisons between them.
#[cycle(group)]
fn comparison(reader: &mut Reader<'_, '_>, allowed: u8) -> Result<Numbered, Placed<GrammarFault>>
    ensures { Builds (comparison_made (inner_made allowed)) (parse_at rule allowed comparison (stream_of reader.old)) reader.old (shown of_node result) reader.new }
{
    let mut left = layered(reader, Layer::Sum, allowed)?;
    while COMPARED_START.contains(&reader.class()) {
        left = compared(reader, left.number, allowed)?;
    }
    Ok(left)
}

/// A comparison's sign and its right side: a node over that and the left one.
#[cycle(group)]
fn compared(
    reader: &mut Reader<'_, '_>,
    left: u16,
    allowed: u8,
) -> Result<Numbered, Placed<GrammarFault>>
    ensures { Builds (compared_made_over (inner_made allowed) left) (parse_at rule allowed compared (stream_of reader.old)) reader.old (shown of_node result) reader.new }
{
    if !COMPARISONS.contains(&reader.class()) {
        let place = reader.take(TokenClass::Word(Keyword::In))?;
        let right = reader.variable()?;
        return Ok(reader.record(joined(Kind::In, place, left, right.number)));
    }
    let sign = reader.one_of(&COMPARISONS)?;
    let right = layered(reader, Layer::Sum, allowed)?;
    let node = joined(operator_kind(sign.class), sign.place, left, right.number);
    Ok(reader.record(node))
}

/// An operand.
#[cycle(group)]
fn operand(reader: &mut Reader<'_, '_>, allowed: u8) -> Result<Numbered, Placed<GrammarFault>>
    ensures { Builds (operand_made (inner_made allowed)) (parse_at rule allowed operand (stream_of reader.old)) reader.old (shown of_node result) reader.new }
{
    match reader.class() {
        TokenClass::Number => reader.number(),
        TokenClass::Sign(Sign::Minus) => reader.number(),
        class @ TokenClass::Word(Keyword::True) => reader.bare(class, Kind::True),
        class @ TokenClass::Word(Keyword::False) => reader.bare(class, Kind::False),
        TokenClass::Name => named(reader, allowed),
        class @ TokenClass::Word(Keyword::Min) => reader.of_variable(class, Kind::Least),
        class @ TokenClass::Word(Keyword::Max) => reader.of_variable(class, Kind::Greatest),
        class @ TokenClass::Sign(Sign::Count) => reader.of_variable(class, Kind::Count),
        _ => parentheses(reader, allowed),
    }
}

/// A variable, or a call with its arguments.
#[cycle(group)]
fn named(reader: &mut Reader<'_, '_>, allowed: u8) -> Result<Numbered, Placed<GrammarFault>>
    ensures { Builds (named_made (inner_made allowed)) (parse_at rule allowed named (stream_of reader.old)) reader.old (shown of_node result) reader.new }
{
    let name = reader.name()?;
    if reader.class() != TokenClass::Sign(Sign::Open) {
        return Ok(reader.record(name.node(Kind::Variable)));
    }
    let first = arguments(reader, allowed)?;
    Ok(reader.record(Node {
        first,
        ..name.node(Kind::Call)
    }))
}

/// The arguments of a call, with the parentheses around them: the number of the first.
#[cycle(group)]
fn arguments(reader: &mut Reader<'_, '_>, allowed: u8) -> Result<u16, Placed<GrammarFault>>
    ensures { Reads (nest_made allowed 38 arguments) (parse_at rule allowed (nest 38 arguments) (stream_of reader.old)) reader.old (shown of_list result) reader.new }
{
    let _place = reader.open(TokenClass::Sign(Sign::Open), allowed)?;
    closed_arguments(reader, allowed - 1)
}

/// The arguments of a call and the parenthesis that closes them.
#[cycle(group)]
fn closed_arguments(reader: &mut Reader<'_, '_>, allowed: u8) -> Result<u16, Placed<GrammarFault>>
    ensures { (p : ℕ) → Reads (rule_at allowed arguments p) (parse_at rule allowed (rule arguments) (stream_of reader.old)) reader.old (shown of_list result) reader.new }
{
    let first = expressions(reader, allowed)?;
    reader.take(TokenClass::Sign(Sign::Close))?;
    Ok(first)
}

/// Expressions with commas between them, or none.
#[cycle(group)]
fn expressions(reader: &mut Reader<'_, '_>, allowed: u8) -> Result<u16, Placed<GrammarFault>>
    ensures { Reads (arguments_made allowed) (parse_at rule allowed arguments_gram (stream_of reader.old)) reader.old (shown of_list result) reader.new }
{
    if !EXPRESSION_START.contains(&reader.class()) {
        return Ok(0);
    }
    let mut first = expression(reader, allowed)?.number;
    while reader.class() == TokenClass::Sign(Sign::Comma) {
        let last = reader.nodes();
        reader.take(TokenClass::Sign(Sign::Comma))?;
        let next = expression(reader, allowed)?;
        first = reader.chain(first, last, next.number);
    }
    Ok(first)
}

/// An expression in parentheses.
#[cycle(group)]
fn parentheses(reader: &mut Reader<'_, '_>, allowed: u8) -> Result<Numbered, Placed<GrammarFault>>
    ensures { Builds (nest_made allowed 38 parentheses) (parse_at rule allowed (nest 38 parentheses) (stream_of reader.old)) reader.old (shown of_node result) reader.new }
{
    let _place = reader.open(TokenClass::Sign(Sign::Open), allowed)?;
    enclosed(reader, allowed - 1)
}

/// An expression and the parenthesis that closes it.
#[cycle(group)]
fn enclosed(reader: &mut Reader<'_, '_>, allowed: u8) -> Result<Numbered, Placed<GrammarFault>>
    ensures { (p : ℕ) → Builds (rule_at allowed parentheses p) (parse_at rule allowed (rule parentheses) (stream_of reader.old)) reader.old (shown of_node result) reader.new }
{
    let inner = expression(reader, allowed)?;
    reader.take(TokenClass::Sign(Sign::Close))?;
    Ok(inner)
}
