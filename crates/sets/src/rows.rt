//! One set, kept in a row of cells.
ghost use Rattle.std.specs.Prelude.{◌≡◌, ◌≤◌, true, take};
ghost use Rattle.sets.specs.Sets.{rising};

mod asking;
mod changing;

/// How many cells a row has, which is the most numbers that a set may have.
const CELLS: usize = 64;

/// A row that has no cell left for one more number.
#[derive(Clone, Copy, PartialEq, Eq, Debug)]
pub(crate) struct NoRoom;

/// One set: its numbers in rising order, in the first `count` cells.
#[derive(Clone, Copy)]
pub struct Row {
    cells: [i32; CELLS],
    count: u8,
    ghost fit: { count ≤ 64 },
    ghost rises: { rising (take count cells) ≡ true },
}
