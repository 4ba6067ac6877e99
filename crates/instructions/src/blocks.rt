//! Lists of instructions, and the instructions that hold them.
ghost use Rattle.std.specs.Prelude.{◌≡◌, ◌<◌};
ghost use Rattle.grammar.specs.Firsts.{firsts};
ghost use Rattle.grammar.specs.Grammars.{nest};
ghost use Rattle.grammar.specs.Parsers.{parse_at};
ghost use Rattle.grammar.specs.TokenClasses.{class_number, among};
ghost use Rattle.syntax.specs.Nodes.{inner_made, else_made, instruction_made, instructions_made};
ghost use Rattle.syntax.specs.Syntax.{rule, choice, repetition, instruction, instructions};
ghost use Rattle.reading.specs.Nests.{nest_made, rule_at};
ghost use Rattle.reading.specs.States.{stream_of, Reads, Builds, shown, of_node, of_list};
ghost use Rattle.instructions.specs.Blocks.{else_gram, condition_gram, condition_made};

use crate::simple::{of_expression, read_into, with_set, wordless};
use expressions::operands::{EXPRESSION_START, expression};
use grammar::classing::TokenClass;
use grammar::faults::GrammarFault;
use reading::readers::{Numbered, Reader};
use table::kinds::Kind;
use table::nodes::Node;
use text::places::Placed;
use text::spellings::{Keyword, Sign};

/// The classes of the tokens that may begin an instruction, but for those that begin an expression.
const WORDED_START: [TokenClass; 8] = [
    TokenClass::Sign(Sign::Semicolon),
    TokenClass::Word(Keyword::If),
    TokenClass::Word(Keyword::While),
    TokenClass::Word(Keyword::Write),
    TokenClass::Word(Keyword::Read),
    TokenClass::Word(Keyword::Add),
    TokenClass::Word(Keyword::Remove),
    TokenClass::Word(Keyword::Return),
];

/// Whether a token of the class may begin an instruction.
fn may_begin(class: TokenClass) -> bool
    ensures { result ≡ among (firsts instruction) (class_number class) }
{
    WORDED_START.contains(&class) || EXPRESSION_START.contains(&class)
}

/// A condition in parentheses, and the word behind it.
fn condition(
    reader: &mut Reader<'_, '_>,
    allowed: u8,
    word: TokenClass,
) -> Result<Numbered, Placed<GrammarFault>>
    ensures { Builds (condition_made allowed (class_number word)) (parse_at rule allowed (condition_gram (class_number word)) (stream_of reader.old)) reader.old (shown of_node result) reader.new }
{
    reader.take(TokenClass::Sign(Sign::Open))?;
    let truth = expression(reader, allowed)?;
    reader.take(TokenClass::Sign(Sign::Close))?;
    reader.take(word)?;
    Ok(truth)
}

/// Instructions: the number of the first, or 0.
#[cycle(group)]
pub fn instructions(reader: &mut Reader<'_, '_>, allowed: u8) -> Result<u16, Placed<GrammarFault>>
    ensures { Reads (instructions_made (inner_made allowed)) (parse_at rule allowed instructions (stream_of reader.old)) reader.old (shown of_list result) reader.new }
{
    let mut first = 0;
    while may_begin(reader.class()) {
        let last = reader.nodes();
        let next = instruction(reader, allowed)?;
        first = reader.chain(first, last, next.number);
    }
    Ok(first)
}

/// An instruction.
#[cycle(group)]
fn instruction(reader: &mut Reader<'_, '_>, allowed: u8) -> Result<Numbered, Placed<GrammarFault>>
    ensures { Builds (instruction_made (inner_made allowed)) (parse_at rule allowed instruction (stream_of reader.old)) reader.old (shown of_node result) reader.new }
{
    match reader.class() {
        class @ TokenClass::Sign(Sign::Semicolon) => reader.bare(class, Kind::Empty),
        TokenClass::Word(Keyword::If) => choice(reader, allowed),
        TokenClass::Word(Keyword::While) => repetition(reader, allowed),
        class @ TokenClass::Word(Keyword::Write) => {
            of_expression(reader, allowed, class, Kind::Write)
        }
        TokenClass::Word(Keyword::Read) => read_into(reader),
        class @ TokenClass::Word(Keyword::Add) => {
            with_set(
                reader,
                allowed,
                class,
                TokenClass::Word(Keyword::To),
                Kind::Add,
            )
        }
        class @ TokenClass::Word(Keyword::Remove) => {
            with_set(
                reader,
                allowed,
                class,
                TokenClass::Word(Keyword::From),
                Kind::Remove,
            )
        }
        class @ TokenClass::Word(Keyword::Return) => {
            of_expression(reader, allowed, class, Kind::Return)
        }
        _ => wordless(reader, allowed),
    }
}

/// An `if`.
#[cycle(group)]
fn choice(reader: &mut Reader<'_, '_>, allowed: u8) -> Result<Numbered, Placed<GrammarFault>>
    ensures { Builds (nest_made allowed 7 choice) (parse_at rule allowed (nest 7 choice) (stream_of reader.old)) reader.old (shown of_node result) reader.new }
{
    let place = reader.open(TokenClass::Word(Keyword::If), allowed)?;
    branches(reader, allowed - 1, place)
}

/// What stands behind an `if`: a node over the condition and the instructions of each branch, at the `if`.
#[cycle(group)]
fn branches(
    reader: &mut Reader<'_, '_>,
    allowed: u8,
    place: u16,
) -> Result<Numbered, Placed<GrammarFault>>
    ensures { Builds (rule_at allowed choice place) (parse_at rule allowed (rule choice) (stream_of reader.old)) reader.old (shown of_node result) reader.new }
{
    let truth = condition(reader, allowed, TokenClass::Word(Keyword::Then))?;
    let then = instructions(reader, allowed)?;
    let otherwise = otherwise(reader, allowed)?;
    reader.take(TokenClass::Word(Keyword::Fi))?;
    reader.take(TokenClass::Sign(Sign::Semicolon))?;
    Ok(reader.record(Node {
        first: truth.number,
        second: then,
        third: otherwise,
        ..Node::bare(Kind::If, place)
    }))
}

/// An `else` and its instructions, or nothing.
#[cycle(group)]
fn otherwise(reader: &mut Reader<'_, '_>, allowed: u8) -> Result<u16, Placed<GrammarFault>>
    ensures { Reads (else_made (inner_made allowed)) (parse_at rule allowed else_gram (stream_of reader.old)) reader.old (shown of_list result) reader.new }
{
    if reader.class() != TokenClass::Word(Keyword::Else) {
        return Ok(0);
    }
    reader.take(TokenClass::Word(Keyword::Else))?;
    instructions(reader, allowed)
}

/// A `while`.
#[cycle(group)]
fn repetition(reader: &mut Reader<'_, '_>, allowed: u8) -> Result<Numbered, Placed<GrammarFault>>
    ensures { Builds (nest_made allowed 11 repetition) (parse_at rule allowed (nest 11 repetition) (stream_of reader.old)) reader.old (shown of_node result) reader.new }
{
    let place = reader.open(TokenClass::Word(Keyword::While), allowed)?;
    repeated(reader, allowed - 1, place)
}

/// What stands behind a `while`: a node over the condition and the instructions, at the `while`.
#[cycle(group)]
fn repeated(
    reader: &mut Reader<'_, '_>,
    allowed: u8,
    place: u16,
) -> Result<Numbered, Placed<GrammarFault>>
    ensures { Builds (rule_at allowed repetition place) (parse_at rule allowed (rule repetition) (stream_of reader.old)) reader.old (shown of_node result) reader.new }
{
    let truth = condition(reader, allowed, TokenClass::Word(Keyword::Do))?;
    let body = instructions(reader, allowed)?;
    reader.take(TokenClass::Word(Keyword::Od))?;
    reader.take(TokenClass::Sign(Sign::Semicolon))?;
    Ok(reader.record(Node {
        first: truth.number,
        second: body,
        ..Node::bare(Kind::While, place)
    }))
}
