//! Records of a node table.
ghost use Rattle.std.specs.Prelude.{◌≡◌};
ghost use Rattle.table.specs.Records.{bare, zero};

use crate::kinds::Kind;

/// The fewest records that a table may have.
pub const FEWEST_RECORDS: usize = 2;

/// The most records that a table may have.
pub const MOST_RECORDS: usize = 4_096;

/// One record. Fields that its kind does not use are zero.
#[derive(Clone, Copy, PartialEq, Eq, Debug, Default)]
pub struct Node {
    pub kind: u8,
    /// The bytes of its name, if it has one.
    pub length: u8,
    pub first: u16,
    pub second: u16,
    pub third: u16,
    /// The next of its list, or 0.
    pub next: u16,
    /// The offset of its name, sign, keyword or number.
    pub place: u16,
    pub value: i32,
}

impl Node {
    /// A record that is no node.
    pub fn zero() -> Node
        ensures { result ≡ zero }
    {
        Node::default()
    }

    /// A node with a kind and a place alone.
    pub fn bare(kind: Kind, place: u16) -> Node
        ensures { result ≡ bare kind place }
    {
        Node {
            kind: kind.number(),
            place,
            ..Node::zero()
        }
    }
}
