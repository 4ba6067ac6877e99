//! A port over any port, with a range of its own.
ghost use Rattle.std.specs.Prelude.{◌≡◌, ◌∷◌};
ghost use Rattle.ports.specs.Fences.{range_over, fenced, Guards};
ghost use Rattle.ports.specs.Meanings.{within};

use crate::faults::{PortFault, RangeFault};
use crate::interface::Port;

/// The numbers from `low` to `high`, one at least.
#[derive(Clone, Copy, PartialEq, Eq, Debug)]
pub struct Range {
    low: i32,
    high: i32,
}

impl Range {
    /// Refused where `low` is above `high`.
    pub fn over(low: i32, high: i32) -> Result<Range, RangeFault>
        ensures { result ≡ range_over low high }
    {
        if low > high {
            return Err(RangeFault::Reversed);
        }
        Ok(Range { low, high })
    }

    fn contains(self, n: i32) -> bool
        ensures { result ≡ within self.low self.high n }
    {
        (self.low..=self.high).contains(&n)
    }
}

/// Allows what the port below allows and lies within a range; all else is as below.
#[derive(Drop)]
pub struct Fence<'p, P> {
    under: &'p mut P,
    range: Range,
}

impl<'p, P: Port> Fence<'p, P> {
    /// The port is lent and not taken, so its owner knows what it holds once the fence is gone. No number outside the range
    /// ever reaches it.
    pub fn over(port: &'p mut P, range: Range) -> Fence<'p, P>
        ensures under { result.under.now ≡ port.old }
        ensures range { result.range ≡ range }
        ensures holds { result.under.ghost_name ≡ port.entry.ghost_name }
        ensures guards { Guards range (P.Port.meaning port.old) }
    {
        Fence { under: port, range }
    }
}

impl<P: Port> Port for Fence<'_, P> {
    ghost meaning = { λ s. fenced s.range (P.Port.meaning s.under.now) };

    ghost lent = { λ s. s.under.ghost_name ∷ P.Port.lent s.under.now };

    fn read(&mut self) -> Result<i32, PortFault> {
        self.under.read()
    }

    fn write(&mut self, n: i32) -> Result<(), PortFault> {
        if !self.range.contains(n) {
            return Err(PortFault::OutOfRange(n));
        }
        self.under.write(n)
    }
}
