//! Where an item stands in a text.
ghost use Rattle.std.specs.Prelude.{◌≡◌, Some};
ghost use Rattle.text.specs.Tokens.{refused_at};

use refusals::Fault;
use std::fmt;

/// An item with the offset of its first byte.
#[derive(Clone, Copy, PartialEq, Eq, Debug)]
pub struct Placed<T> {
    pub item: T,
    pub place: usize,
}

impl<T> Placed<T> {
    /// Another item in the same place.
    pub fn map<U, F: FnOnce(T) -> U>(self, f: F) -> Placed<U>
        requires { F.pre f self.item }
        ensures item { F.post f self.item result.item }
        ensures place { result.place ≡ self.place }
    {
        Placed {
            item: f(self.item),
            place: self.place,
        }
    }
}

/// A refusal as the programs print it: its number and its place.
impl<F: Fault> fmt::Display for Placed<F> {
    ghost output = { λ p. Some (refused_at (F.number p.item) p.place) };

    fn fmt<W: fmt::Write>(&self, f: &mut fmt::Formatter<W>) -> fmt::Result {
        let number = self.item.number();
        let place = self.place;
        write!(f, "refused {number} {place}")
    }
}
