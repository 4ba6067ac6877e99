//! A port over lists of numbers.
ghost use Rattle.std.specs.Prelude.{◌≡◌, ◌≤◌, [], ◌∷◌, length};
ghost use Rattle.ports.specs.Meanings.{open32};

use crate::faults::PortFault;
use crate::interface::Port;

/// Reads the numbers of one slice, and writes into another. The input is what still waits.
#[derive(Drop)]
pub struct ListPort<'i, 'o> {
    input: &'i [i32],
    output: &'o mut [i32],
    used: usize,
    ghost wrote: { used ≤ length output.now },
}

impl<'i, 'o> ListPort<'i, 'o> {
    ghost use Rattle.ports.specs.Lists.{list_meaning};

    /// All of the input waits, nothing is written, and there is room for as many numbers as the output has.
    pub fn over(input: &'i [i32], output: &'o mut [i32]) -> ListPort<'i, 'o>
        ensures meaning { list_meaning result ≡ open32 input.now [] (length output.old) }
        ensures holds { result.output.ghost_name ≡ output.entry.ghost_name }
    {
        ListPort {
            input,
            output,
            used: 0,
        }
    }

    /// The numbers written.
    pub fn written(&self) -> &[i32]
        ensures { result.now ≡ (list_meaning self.now).written }
    {
        &self.output[..self.used]
    }
}

impl Port for ListPort<'_, '_> {
    ghost use Rattle.ports.specs.Lists.{list_meaning};

    ghost meaning = { list_meaning };

    ghost lent = { λ s. s.output.ghost_name ∷ [] };

    fn read(&mut self) -> Result<i32, PortFault> {
        let (n, rest) = self.input.split_first().ok_or(PortFault::NoneWaits)?;
        self.input = rest;
        Ok(*n)
    }

    fn write(&mut self, n: i32) -> Result<(), PortFault> {
        if self.used == self.output.len() {
            return Err(PortFault::NoRoom(n));
        }
        self.output[self.used] = n;
        self.used += 1;
        Ok(())
    }
}
