//! Records of nodes.
ghost use Rattle.std.specs.Prelude.{◌≡◌};
ghost use Rattle.syntax.specs.Nodes.{titled, valued};
ghost use Rattle.table.specs.declared.kinds.Kind.TheVariants as kind;

use crate::readers::Name;
use table::kinds::Kind;
use table::nodes::Node;

impl Name {
    /// A node with the name, at its place.
    pub fn node(self, kind: Kind) -> Node
        ensures { result ≡ titled kind self.length self.place 0 0 0 0 }
    {
        Node {
            length: self.length,
            ..Node::bare(kind, self.place)
        }
    }
}

/// A number.
pub fn valued(place: u16, value: i32) -> Node
    ensures { result ≡ valued kind.Number place value }
{
    Node {
        value,
        ..Node::bare(Kind::Number, place)
    }
}
