//! A store of 32 sets of numbers, each set of at most 64.
//!
//! A [`stores::SetStore`] has slots 1 to 32, each with a set of `i32`. It answers and changes what the definitions say,
//! of every slot and every number: another slot is refused, a number that is absent from a set of 64 is refused, and
//! a refusal changes nothing. No function asks anything of its caller. [`laws::sets_stand`] states in the words of
//! members what the definitions come to.
//!
//! [`lent::RowStore`] is a store over 32 rows that the caller lends: 260 bytes a row, 8,320 bytes in all. Nothing is
//! allocated, and no row is copied.
//!
//! A set is kept in rising order. `member`, `add` and `remove` search by halving, which takes at most 7 comparisons. `add`
//! and `remove` then move at most 64 numbers. `empty`, `count`, `least` and `greatest` take constant time.
#![tactic(auto)]

pub mod faults;
pub mod laws;
pub mod lent;
pub mod rows;
pub mod stores;

#[cfg(test)]
mod tests {
    use crate::faults::*;
    use crate::lent::*;
    use crate::rows::Row;
    use crate::stores::SetStore;
    use std::mem::size_of;
    use std::test::Fail;

    // The count, the least and the greatest of a set.
    fn told(store: &RowStore, slot: u8) -> Result<(u8, Option<i32>, Option<i32>), SetFault> {
        Ok((
            store.count(slot)?,
            store.least(slot)?,
            store.greatest(slot)?,
        ))
    }

    #[test]
    fn slots(rt: HostRuntime) -> Result<(), Fail> {
        assert_eq!(rt; size_of::<[Row; ROWS]>(), 8320);
        let mut rows = [Row::new(); ROWS];
        let mut store = RowStore::over(&mut rows);
        assert_eq!(rt; store.add(0, 7), Err(SetFault::NoSlot(0)));
        assert_eq!(rt; store.add(33, 7), Err(SetFault::NoSlot(33)));
        store.add(1, 7)?;
        store.add(32, -7)?;
        assert_eq!(rt; told(&store, 1), Ok((1, Some(7), Some(7))));
        assert_eq!(rt; told(&store, 32), Ok((1, Some(-7), Some(-7))));
        Ok(())
    }

    #[test]
    fn full(rt: HostRuntime) -> Result<(), Fail> {
        let mut rows = [Row::new(); ROWS];
        let mut store = RowStore::over(&mut rows);
        for n in (0..64).rev() {
            store.add(2, n)?;
        }
        assert_eq!(rt; store.add(2, 64), Err(SetFault::Full(2)));
        store.add(2, 63)?;
        assert_eq!(rt; told(&store, 2), Ok((64, Some(0), Some(63))));
        Ok(())
    }

    #[test]
    fn ends(rt: HostRuntime) -> Result<(), Fail> {
        let mut rows = [Row::new(); ROWS];
        let mut store = RowStore::over(&mut rows);
        assert_eq!(rt; told(&store, 3), Ok((0, None, None)));
        store.add(3, i32::MAX)?;
        store.add(3, i32::MIN)?;
        store.remove(3, 0)?;
        assert_eq!(rt; told(&store, 3), Ok((2, Some(i32::MIN), Some(i32::MAX))));
        Ok(())
    }
}
