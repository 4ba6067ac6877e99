//! Parameters as they are declared.
ghost use Rattle.std.specs.Prelude.{ℕ};
ghost use Rattle.grammar.specs.Parsers.{parse_at};
ghost use Rattle.syntax.specs.Nodes.{inner_made, parameter_made, parameters_made};
ghost use Rattle.syntax.specs.Syntax.{rule, parameter, parameters};
ghost use Rattle.reading.specs.States.{stream_of, Reads, Builds, shown, of_node, of_list};
ghost use Rattle.declarations.specs.Parameters.{mark_gram, mark_made};

use crate::types::{DATA_TYPES, keyword_type};
use crate::variables::valued;
use grammar::classing::TokenClass;
use grammar::faults::GrammarFault;
use reading::readers::{Numbered, Reader};
use table::kinds::Kind;
use text::places::Placed;
use text::spellings::{Keyword, Sign};

/// What a `var` adds to the number of a parameter's type.
const VAR_MARK: u8 = 10;

/// The mark of a parameter: what its `var` adds to the number of its type, or 0.
fn mark(reader: &mut Reader<'_, '_>) -> Result<u8, Placed<GrammarFault>>
    ensures { (d : ℕ) → Reads (mark_made d) (parse_at rule d mark_gram (stream_of reader.old)) reader.old (shown of_list result) reader.new }
{
    if reader.class() != TokenClass::Word(Keyword::Var) {
        return Ok(0);
    }
    reader.take(TokenClass::Word(Keyword::Var))?;
    Ok(VAR_MARK)
}

/// A parameter: a node with its name, and the number of its type with the mark.
pub fn parameter(reader: &mut Reader<'_, '_>) -> Result<Numbered, Placed<GrammarFault>>
    ensures { (d : ℕ) → Builds (parameter_made (inner_made d)) (parse_at rule d parameter (stream_of reader.old)) reader.old (shown of_node result) reader.new }
{
    let mark = mark(reader)?;
    let name = reader.name()?;
    reader.take(TokenClass::Sign(Sign::Colon))?;
    let word = reader.one_of(&DATA_TYPES)?;
    let value = u16::from(mark) + u16::from(keyword_type(word.class).number());
    let node = valued(name, Kind::Parameter, value);
    Ok(reader.record(node))
}

/// The classes of the tokens that may begin a parameter.
const PARAMETER_START: [TokenClass; 2] = [TokenClass::Word(Keyword::Var), TokenClass::Name];

/// Parameters with commas between them, or none: the number of the first.
pub fn parameters(reader: &mut Reader<'_, '_>) -> Result<u16, Placed<GrammarFault>>
    ensures { (d : ℕ) → Reads (parameters_made (inner_made d)) (parse_at rule d parameters (stream_of reader.old)) reader.old (shown of_list result) reader.new }
{
    if !PARAMETER_START.contains(&reader.class()) {
        return Ok(0);
    }
    let mut first = parameter(reader)?.number;
    while reader.class() == TokenClass::Sign(Sign::Comma) {
        let last = reader.nodes();
        reader.take(TokenClass::Sign(Sign::Comma))?;
        let next = parameter(reader)?;
        first = reader.chain(first, last, next.number);
    }
    Ok(first)
}
