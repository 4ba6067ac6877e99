//! How a row changes its set.
ghost use Rattle.std.specs.Prelude.{◌≡◌, ◌-◌, ◌<◌, [], ◌++◌, length, take, drop, is_ok};
ghost use Rattle.std.specs.List.{insert, remove};
ghost use Rattle.sets.specs.Held.{items};
ghost use Rattle.sets.specs.Sets.{cut, takes, put_in};

use crate::rows::{CELLS, NoRoom, Row};

/// Puts `n` at `p`, moves up what stood there, and lets the last go.
fn insert_at(cells: &mut [i32], p: usize, n: i32)
    requires { p < length cells.old }
    ensures { cells.new ≡ insert (take (length cells.old - 1) cells.old) p n }
{
    cells[p..].rotate_right(1);
    cells[p] = n;
}

/// Takes out what stands at `p`, moves down what follows, and puts what was taken out at the end.
fn remove_at(cells: &mut [i32], p: usize)
    requires { p < length cells.old }
    ensures { cells.new ≡ remove cells.old p ++ take 1 (drop p cells.old) }
{
    cells[p..].rotate_left(1);
}

impl Row {
    /// The empty set.
    pub fn new() -> Row
        ensures { items result ≡ [] }
    {
        Row {
            cells: [0; CELLS],
            count: 0,
        }
    }

    /// Leaves the empty set.
    pub(crate) fn clear(&mut self)
        ensures { items self.new ≡ [] }
    {
        self.count = 0;
    }

    /// Puts `n` in, unless it is absent and the row is full.
    pub(crate) fn add(&mut self, n: i32) -> Result<(), NoRoom>
        ensures gives { is_ok result ≡ takes n (items self.old) }
        ensures leaves { items self.new ≡ put_in n (items self.old) }
    {
        let Err(p) = self.find(n) else {
            return Ok(());
        };
        let count = usize::from(self.count);
        if count == CELLS {
            return Err(NoRoom);
        }
        insert_at(&mut self.cells[0..count + 1], p, n);
        self.count += 1;
        Ok(())
    }

    /// Takes `n` out.
    pub(crate) fn remove(&mut self, n: i32)
        ensures { items self.new ≡ cut n (items self.old) }
    {
        if let Ok(p) = self.find(n) {
            remove_at(&mut self.cells[0..usize::from(self.count)], p);
            self.count -= 1;
        }
    }
}
