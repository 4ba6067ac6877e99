//! The layers of operators that are joined to the left, each with its signs.
ghost use Rattle.std.specs.Prelude.{◌≡◌, ◌∷◌, map};
ghost use Rattle.grammar.specs.TokenClasses.{class_number};
ghost use Rattle.syntax.specs.Nodes.{operator_kind};
ghost use Rattle.expressions.specs.Layers.{first_sign, other_signs};

use grammar::classing::{Asked, TokenClass};
use table::kinds::Kind;
use text::spellings::Sign;

/// A layer of operators between operands of the next tighter layer.
#[derive(Clone, Copy, PartialEq, Eq, Debug)]
pub enum Layer {
    Product,
    Sum,
    Logic,
}

impl Layer {
    /// The classes of its operators.
    pub fn signs(self) -> &'static [TokenClass]
        ensures { map class_number result.now ≡ first_sign self ∷ other_signs self }
    {
        match self {
            Layer::Product => &[
                TokenClass::Sign(Sign::Times),
                TokenClass::Sign(Sign::Divide),
            ],
            Layer::Sum => &[TokenClass::Sign(Sign::Plus), TokenClass::Sign(Sign::Minus)],
            Layer::Logic => &[TokenClass::Sign(Sign::And), TokenClass::Sign(Sign::Or)],
        }
    }
}

/// The kind of node that an operator makes.
pub fn operator_kind<C: Asked>(class: C) -> Kind
    ensures { result ≡ operator_kind (C.asked class) }
{
    if class.is(TokenClass::Sign(Sign::Times)) {
        Kind::Times
    } else if class.is(TokenClass::Sign(Sign::Divide)) {
        Kind::Divide
    } else if class.is(TokenClass::Sign(Sign::Plus)) {
        Kind::Plus
    } else if class.is(TokenClass::Sign(Sign::Minus)) {
        Kind::Minus
    } else if class.is(TokenClass::Sign(Sign::Equal)) {
        Kind::Equal
    } else if class.is(TokenClass::Sign(Sign::Less)) {
        Kind::Less
    } else if class.is(TokenClass::Sign(Sign::AtMost)) {
        Kind::AtMost
    } else if class.is(TokenClass::Sign(Sign::And)) {
        Kind::And
    } else {
        Kind::Or
    }
}
