//! What every port promises.
ghost use Rattle.std.specs.Prelude.{◌≡◌, ℕ, List};
ghost use Rattle.ports.specs.Meanings.{Meaning, read_gives, read_leaves, write_gives, write_leaves};

use crate::faults::PortFault;

/// Numbers that wait to be read, and room for numbers to be written, within a range.
pub trait Port {
    ghost meaning: { Self → Meaning };

    // The names of the memory that is lent to it: a call keeps them, so that the lender knows what it holds after.
    ghost lent: { Self → List ℕ };

    /// Takes the first number that waits.
    fn read(&mut self) -> Result<i32, PortFault>
        ensures gives { result ≡ read_gives (meaning self.old) }
        ensures leaves { meaning self.new ≡ read_leaves (meaning self.old) }
        ensures holds { lent self.new ≡ lent self.old };

    /// Adds a number after those written.
    fn write(&mut self, n: i32) -> Result<(), PortFault>
        ensures gives { result ≡ write_gives (meaning self.old) n }
        ensures leaves { meaning self.new ≡ write_leaves (meaning self.old) n }
        ensures holds { lent self.new ≡ lent self.old };
}
