//! What a store of sets is.
ghost use Rattle.std.specs.Prelude.{◌≡◌, ℕ, ◌-◌, List, [], length, ℤ, Ok};
ghost use Rattle.sets.specs.Sets.{has, cut, least, greatest, put_in};
ghost use Rattle.sets.specs.Slots.{within, change, at, add_gives, Shaped};

use crate::faults::SetFault;

/// The first slot of a store.
const FIRST: u8 = 1;

/// The last slot of a store.
pub const LAST: u8 = 32;

/// 32 sets of numbers, one in each slot from 1 to 32. Another slot is refused, and a call that is refused changes nothing.
pub trait SetStore {
    // What it holds.
    ghost sets: { Self → List (List ℤ) };

    // The names of the memory that is lent to it.
    ghost lent: { Self → List ℕ };

    // 32 sets, each in rising order and of at most 64.
    ghost shape: { (s : Self) → Shaped (sets s) };

    /// Leaves the empty set in a slot.
    fn empty(&mut self, slot: u8) -> Result<(), SetFault>
        ensures gives { result ≡ within slot (Ok tt) }
        ensures leaves { sets self.new ≡ change slot (λ _. []) (sets self.old) }
        ensures holds { lent self.new ≡ lent self.old };

    /// Puts `n` into the set in a slot, unless it is absent there and the set has 64.
    fn add(&mut self, slot: u8, n: i32) -> Result<(), SetFault>
        ensures gives { result ≡ add_gives slot n (sets self.old) }
        ensures leaves { sets self.new ≡ change slot (put_in n) (sets self.old) }
        ensures holds { lent self.new ≡ lent self.old };

    /// Takes `n` out of the set in a slot, if it is there.
    fn remove(&mut self, slot: u8, n: i32) -> Result<(), SetFault>
        ensures gives { result ≡ within slot (Ok tt) }
        ensures leaves { sets self.new ≡ change slot (cut n) (sets self.old) }
        ensures holds { lent self.new ≡ lent self.old };

    /// Whether `n` is in the set in a slot.
    fn member(&self, slot: u8, n: i32) -> Result<bool, SetFault>
        ensures { result ≡ within slot (Ok (has n (at (sets self.now) slot))) };

    /// How many numbers the set in a slot has.
    fn count(&self, slot: u8) -> Result<u8, SetFault>
        ensures { result ≡ within slot (Ok (length (at (sets self.now) slot))) };

    /// The least number of the set in a slot, unless it is empty.
    fn least(&self, slot: u8) -> Result<Option<i32>, SetFault>
        ensures { result ≡ within slot (Ok (least (at (sets self.now) slot))) };

    /// The greatest number of the set in a slot, unless it is empty.
    fn greatest(&self, slot: u8) -> Result<Option<i32>, SetFault>
        ensures { result ≡ within slot (Ok (greatest (at (sets self.now) slot))) };
}

/// The place of a slot, from 0 on.
pub(crate) fn place_of(slot: u8) -> Result<usize, SetFault>
    ensures { result ≡ within slot (Ok (slot - 1)) }
{
    match slot {
        FIRST..=LAST => Ok(usize::from(slot - FIRST)),
        _ => Err(SetFault::NoSlot(slot)),
    }
}
