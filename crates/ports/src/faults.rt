//! What a port refuses, and the number that each refusal is known by.
ghost use Rattle.std.specs.Prelude.{◌≡◌};
ghost use Rattle.ports.specs.Faults.{fault_number, fault_carries, range_number, malformed_number};

use refusals::Fault;

/// Why a port refuses to read or to write.
#[derive(Clone, Copy, PartialEq, Eq, Debug)]
pub enum PortFault {
    NoneWaits,
    /// The number that found no room.
    NoRoom(i32),
    /// The number that is outside the range.
    OutOfRange(i32),
}

impl Fault for PortFault {
    ghost number = { fault_number };

    fn number(self) -> u8 {
        match self {
            PortFault::NoneWaits => 43,
            PortFault::NoRoom(_) => 49,
            PortFault::OutOfRange(_) => 50,
        }
    }
}

impl PortFault {
    /// The number that was to be written, or 0.
    pub fn carries(self) -> i32
        ensures { result ≡ fault_carries self }
    {
        match self {
            PortFault::NoneWaits => 0,
            PortFault::NoRoom(n) | PortFault::OutOfRange(n) => n,
        }
    }
}

/// Why a range is refused.
#[derive(Clone, Copy, PartialEq, Eq, Debug)]
pub enum RangeFault {
    /// Its lowest number is above its highest.
    Reversed = 53,
}

impl Fault for RangeFault {
    ghost number = { range_number };

    fn number(self) -> u8 {
        self as u8
    }
}

/// A word of a text that spells no number.
#[derive(Clone, Copy, PartialEq, Eq, Debug)]
pub struct Malformed {
    /// The offset of its first byte.
    pub place: usize,
}

impl Fault for Malformed {
    ghost number = { malformed_number };

    fn number(self) -> u8 {
        54
    }
}
