//! The types that may be declared.
ghost use Rattle.std.specs.Prelude.{◌≡◌};
ghost use Rattle.grammar.specs.TokenClasses.{class_number};
ghost use Rattle.syntax.specs.Nodes.{keyword_type};

use grammar::classing::TokenClass;
use table::kinds::DataType;
use text::spellings::Keyword;

/// The classes of the keywords for types of variables and parameters.
pub const DATA_TYPES: [TokenClass; 3] = [
    TokenClass::Word(Keyword::Int),
    TokenClass::Word(Keyword::Bool),
    TokenClass::Word(Keyword::Iset),
];

/// The type that a keyword means; `void` is none of the others.
pub fn keyword_type(class: TokenClass) -> DataType
    ensures { result ≡ keyword_type (class_number class) }
{
    match class {
        TokenClass::Word(Keyword::Int) => DataType::Integer,
        TokenClass::Word(Keyword::Bool) => DataType::Truth,
        TokenClass::Word(Keyword::Iset) => DataType::IntegerSet,
        _ => DataType::Void,
    }
}
