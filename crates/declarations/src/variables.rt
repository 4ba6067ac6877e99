//! Variables and parameters as they are declared.
ghost use Rattle.std.specs.Prelude.{◌≡◌, ℕ};
ghost use Rattle.grammar.specs.Parsers.{parse_at};
ghost use Rattle.syntax.specs.Nodes.{titled};
ghost use Rattle.syntax.specs.Syntax.{rule};
ghost use Rattle.reading.specs.States.{stream_of, Builds, shown, of_node};
ghost use Rattle.declarations.specs.Variables.{variable_gram, variable_made};

use crate::types::{DATA_TYPES, keyword_type};
use grammar::classing::TokenClass;
use grammar::faults::GrammarFault;
use reading::readers::{Name, Numbered, Reader};
use table::kinds::Kind;
use table::nodes::Node;
use text::places::Placed;
use text::spellings::Sign;

/// A node with a name and a number.
pub(crate) fn valued(name: Name, kind: Kind, value: u16) -> Node
    ensures { result ≡ titled kind name.length name.place 0 0 0 value }
{
    Node {
        value: i32::from(value),
        ..name.node(kind)
    }
}

/// A variable and its type: a node with the name, and the number of the type.
pub fn variable(reader: &mut Reader<'_, '_>) -> Result<Numbered, Placed<GrammarFault>>
    ensures { (d : ℕ) → Builds (variable_made d) (parse_at rule d variable_gram (stream_of reader.old)) reader.old (shown of_node result) reader.new }
{
    let name = reader.name()?;
    let word = reader.one_of(&DATA_TYPES)?;
    reader.take(TokenClass::Sign(Sign::Semicolon))?;
    let node = valued(
        name,
        Kind::Declared,
        u16::from(keyword_type(word.class).number()),
    );
    Ok(reader.record(node))
}
