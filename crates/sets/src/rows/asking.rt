//! What a row tells of its set.
ghost use Rattle.std.specs.Prelude.{◌≡◌, length, MatchResult};
ghost use Rattle.sets.specs.Held.{items};
ghost use Rattle.sets.specs.Searches.{Found, Missing};
ghost use Rattle.sets.specs.Sets.{has, least, greatest};

use crate::rows::Row;

impl Row {
    /// The numbers, in rising order.
    fn numbers(&self) -> &[i32]
        ensures { result.now ≡ items self.now }
    {
        &self.cells[..usize::from(self.count)]
    }

    /// Where `n` stands, or else where it belongs.
    pub(super) fn find(&self, n: i32) -> Result<usize, usize>
        ensures { MatchResult result (Found n (items self.now)) (Missing n (items self.now)) }
    {
        self.numbers().binary_search(&n)
    }

    /// Whether `n` is a member.
    pub(crate) fn has(&self, n: i32) -> bool
        ensures { result ≡ has n (items self.now) }
    {
        self.find(n).is_ok()
    }

    /// How many numbers it has.
    pub(crate) fn size(&self) -> u8
        ensures { result ≡ length (items self.now) }
    {
        self.count
    }

    /// The least number, unless the set is empty.
    pub(crate) fn least(&self) -> Option<i32>
        ensures { result ≡ least (items self.now) }
    {
        self.numbers().first().copied()
    }

    /// The greatest number, unless the set is empty.
    pub(crate) fn greatest(&self) -> Option<i32>
        ensures { result ≡ greatest (items self.now) }
    {
        self.numbers().last().copied()
    }
}
