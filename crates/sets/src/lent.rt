//! A store over rows that the caller lends.
ghost use Rattle.std.specs.Prelude.{◌≡◌, [], ◌∷◌, length, Ok};
ghost use Rattle.std.specs.Result.{result_map_both};
ghost use Rattle.sets.specs.Held.{items, held};
ghost use Rattle.sets.specs.Shapes.{shaped};
ghost use Rattle.sets.specs.Slots.{at, within};

use crate::faults::SetFault;
use crate::rows::Row;
use crate::stores::{LAST, SetStore, place_of};

/// How many rows a store is over: one for each slot.
pub const ROWS: usize = LAST as usize;

/// A store over 32 rows that are lent to it.
#[derive(Drop)]
pub struct RowStore<'a> {
    rows: &'a mut [Row; ROWS],
    ghost full: { length rows.now ≡ 32 },
}

impl<'a> RowStore<'a> {
    /// A store that holds what the rows hold.
    pub fn over(rows: &'a mut [Row; ROWS]) -> RowStore<'a>
        ensures holds { held result.rows.now ≡ held rows.old }
        ensures lent { result.rows.ghost_name ≡ rows.entry.ghost_name }
    {
        RowStore { rows }
    }

    /// The row of a slot.
    fn row(&self, slot: u8) -> Result<&Row, SetFault>
        ensures { result_map_both (λ r. items r.now) (λ e. e) result ≡ within slot (Ok (at (held self.now.rows.now) slot)) }
    {
        let rows = &*self.rows;
        Ok(&rows[place_of(slot)?])
    }
}

// A row is reached by a variable `rows`: an element behind a `&mut` that is a field cannot be lent in place.
impl<'a> SetStore for RowStore<'a> {
    ghost sets = { λ s. held s.rows.now };

    ghost lent = { λ s. s.rows.ghost_name ∷ [] };

    ghost shape = { λ s. shaped s.rows.now s.full };

    fn empty(&mut self, slot: u8) -> Result<(), SetFault> {
        let rows = &mut *self.rows;
        rows[place_of(slot)?].clear();
        Ok(())
    }

    fn add(&mut self, slot: u8, n: i32) -> Result<(), SetFault> {
        let rows = &mut *self.rows;
        rows[place_of(slot)?]
            .add(n)
            .map_err(|_| SetFault::Full(slot))
    }

    fn remove(&mut self, slot: u8, n: i32) -> Result<(), SetFault> {
        let rows = &mut *self.rows;
        rows[place_of(slot)?].remove(n);
        Ok(())
    }

    fn member(&self, slot: u8, n: i32) -> Result<bool, SetFault> {
        Ok(self.row(slot)?.has(n))
    }

    fn count(&self, slot: u8) -> Result<u8, SetFault> {
        Ok(self.row(slot)?.size())
    }

    fn least(&self, slot: u8) -> Result<Option<i32>, SetFault> {
        Ok(self.row(slot)?.least())
    }

    fn greatest(&self, slot: u8) -> Result<Option<i32>, SetFault> {
        Ok(self.row(slot)?.greatest())
    }
}
