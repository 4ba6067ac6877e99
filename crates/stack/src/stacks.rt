//! The stack over a lent slice.
ghost use Rattle.std.specs.Prelude.{◌≡◌};
ghost use Rattle.stack.specs.Stacks.{Pushed, Grown, Popped, Shrunk, Looked, Changed, ChangedEntries};

use crate::entries::Entry;
use crate::heights::Height;
use refusals::Fault;

/// An entry that found no place.
#[derive(Clone, Copy, PartialEq, Eq, Debug)]
pub struct Overflow {
    pub number: u8,
}

impl Fault for Overflow {
    ghost number = { λ o. o.number };

    fn number(self) -> u8 {
        self.number
    }
}

/// Puts an entry on.
pub fn put_on<E: Entry>(slots: &mut [E], height: &mut Height, entry: E) -> Result<(), Overflow>
    ensures pushed { Pushed E.LIMIT E.OVERFLOW slots.old height.old.entries entry result slots.new height.new.entries }
    ensures grown { Grown slots.old height.old.entries entry result slots.new height.new.entries }
{
    let at = height.entries;
    if at >= E::LIMIT || at >= slots.len() {
        return Err(Overflow {
            number: E::OVERFLOW,
        });
    }
    slots[at] = entry;
    height.entries = at + 1;
    Ok(())
}

/// Takes the topmost entry off.
pub fn take_off<E: Entry>(slots: &[E], height: &mut Height) -> Option<E>
    ensures popped { Popped slots.now height.old.entries result height.new.entries }
    ensures shrunk { Shrunk slots.now height.old.entries result height.new.entries }
{
    let top = height.entries.checked_sub(1)?;
    let entry = slots.get(top).copied()?;
    height.entries = top;
    Some(entry)
}

/// The entry at i, from the lowest.
pub fn look_at<E: Entry>(slots: &[E], height: &Height, i: usize) -> Option<E>
    ensures { Looked slots.now height.now.entries i result }
{
    if i < height.entries {
        slots.get(i).copied()
    } else {
        None
    }
}

/// Puts another entry in the place of the one at i, from the lowest; false where there is none.
pub fn change_at<E: Entry>(slots: &mut [E], height: &Height, i: usize, entry: E) -> bool
    ensures changed { Changed slots.old height.now.entries i entry result slots.new }
    ensures entries { ChangedEntries slots.old height.now.entries i entry result slots.new }
{
    if i >= height.entries || i >= slots.len() {
        return false;
    }
    slots[i] = entry;
    true
}

/// A stack over lent slots.
#[derive(Drop)]
pub struct Stack<'a, E> {
    pub slots: &'a mut [E],
}

impl<'a, E: Entry> Stack<'a, E> {
    /// Puts an entry on.
    pub fn push(&mut self, height: &mut Height, entry: E) -> Result<(), Overflow>
        ensures pushed { Pushed E.LIMIT E.OVERFLOW self.old.slots.now height.old.entries entry result self.new.slots.now height.new.entries }
        ensures grown { Grown self.old.slots.now height.old.entries entry result self.new.slots.now height.new.entries }
        ensures lent { self.new.slots.ghost_name ≡ self.old.slots.ghost_name }
    {
        put_on(self.slots, height, entry)
    }

    /// Takes the topmost entry off.
    pub fn pop(&self, height: &mut Height) -> Option<E>
        ensures popped { Popped self.now.slots.now height.old.entries result height.new.entries }
        ensures shrunk { Shrunk self.now.slots.now height.old.entries result height.new.entries }
    {
        take_off(self.slots, height)
    }

    /// The entry at i, from the lowest.
    pub fn get(&self, height: &Height, i: usize) -> Option<E>
        ensures { Looked self.now.slots.now height.now.entries i result }
    {
        look_at(self.slots, height, i)
    }

    /// Puts another entry in the place of the one at i; false where there is none.
    pub fn change(&mut self, height: &Height, i: usize, entry: E) -> bool
        ensures changed { Changed self.old.slots.now height.now.entries i entry result self.new.slots.now }
        ensures entries { ChangedEntries self.old.slots.now height.now.entries i entry result self.new.slots.now }
        ensures lent { self.new.slots.ghost_name ≡ self.old.slots.ghost_name }
    {
        change_at(self.slots, height, i, entry)
    }
}
