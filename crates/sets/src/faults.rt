//! Why a store of sets refuses a call.
ghost use Rattle.std.specs.Prelude.{◌≡◌};
ghost use Rattle.sets.specs.Faults.{fault_number, fault_slot};

use refusals::Fault;

/// A refusal, with the slot that was asked for.
#[derive(Clone, Copy, PartialEq, Eq, Debug)]
pub enum SetFault {
    /// There is no such slot.
    NoSlot(u8),
    /// The set in this slot has no room for one more number.
    Full(u8),
}

impl Fault for SetFault {
    ghost number = { fault_number };

    fn number(self) -> u8 {
        match self {
            SetFault::NoSlot(_) => 56,
            SetFault::Full(_) => 46,
        }
    }
}

impl SetFault {
    /// The slot that was asked for.
    pub fn slot(self) -> u8
        ensures { result ≡ fault_slot self }
    {
        match self {
            SetFault::NoSlot(slot) | SetFault::Full(slot) => slot,
        }
    }
}
