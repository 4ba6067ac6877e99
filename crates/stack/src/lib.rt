//! One bounded stack for every kind of entry.
//!
//! A [`stacks::Stack`] is a struct over a slice that the caller lends; how many of its slots are entries is a
//! [`heights::Height`], lent at each call. Put on, take off, look at, change: each says what all the slots and the height are
//! after it, and leaves the other entries as they were. A refusal changes nothing. Each kind of entry states its own limit and
//! the number of its own overflow ([`entries::Entry`]); all is proved once, for every kind.
//!
//! [`heights::Restore`] puts a height back to what it was, on every way out of a block.
//!
//! Each call takes constant time, writes one slot at most, and takes no memory of its own.
#![tactic(auto)]

pub mod entries;
pub mod heights;
pub mod stacks;

#[cfg(test)]
mod tests {
    use super::entries::Entry;
    use super::heights::*;
    use super::stacks::*;

    #[derive(Clone, Copy, PartialEq, Eq, Debug)]
    struct Mark(u16);

    impl Entry for Mark {
        ghost LIMIT = { 3 };

        ghost OVERFLOW = { 26 };

        const LIMIT: usize = 3;

        const OVERFLOW: u8 = 26;
    }

    #[test]
    fn up_to_the_limit(rt: HostRuntime) {
        let mut slots = [Mark(0); 5];
        let mut height = Height { entries: 0 };
        let mut stack = Stack { slots: &mut slots };
        assert_eq!(rt; stack.pop(&mut height), None);
        assert_eq!(rt; stack.push(&mut height, Mark(7)), Ok(()));
        assert_eq!(rt; stack.push(&mut height, Mark(8)), Ok(()));
        assert_eq!(rt; stack.push(&mut height, Mark(9)), Ok(()));
        assert_eq!(rt;
            stack.push(&mut height, Mark(10)),
            Err(Overflow { number: 26 })
        );
        assert_eq!(rt; height.entries, 3);
        assert!(rt; stack.change(&height, 0, Mark(6)));
        assert!(rt; !stack.change(&height, 3, Mark(5)));
        assert_eq!(rt; stack.get(&height, 0), Some(Mark(6)));
        assert_eq!(rt; stack.get(&height, 3), None);
        assert_eq!(rt; stack.pop(&mut height), Some(Mark(9)));
        assert_eq!(rt; stack.pop(&mut height), Some(Mark(8)));
        assert_eq!(rt; height.entries, 1);
    }

    #[test]
    fn short_of_slots(rt: HostRuntime) {
        let mut slots = [Mark(0); 1];
        let mut height = Height { entries: 0 };
        let mut stack = Stack { slots: &mut slots };
        assert_eq!(rt; stack.push(&mut height, Mark(7)), Ok(()));
        assert_eq!(rt;
            stack.push(&mut height, Mark(8)),
            Err(Overflow { number: 26 })
        );
        height.entries = 2;
        assert_eq!(rt; stack.pop(&mut height), None);
        assert_eq!(rt; height.entries, 2);
    }

    fn two(stack: &mut Stack<Mark>, height: &mut Height) -> Result<(), Overflow> {
        let guard = Restore::new(height);
        stack.push(guard.height, Mark(1))?;
        stack.push(guard.height, Mark(2))
    }

    #[test]
    fn height_put_back(rt: HostRuntime) {
        let mut slots = [Mark(0); 3];
        let mut height = Height { entries: 1 };
        let mut stack = Stack { slots: &mut slots };
        assert_eq!(rt; two(&mut stack, &mut height), Ok(()));
        assert_eq!(rt; height.entries, 1);
        height.entries = 2;
        assert_eq!(rt; two(&mut stack, &mut height), Err(Overflow { number: 26 }));
        assert_eq!(rt; height.entries, 2);
    }
}
