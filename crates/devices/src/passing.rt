//! Numbers from a port into a store and out again.
ghost use Rattle.std.specs.Prelude.{◌≡◌};
ghost use Rattle.devices.specs.Passing.{pass_gives, pass_sets, pass_leaves};

use crate::faults::DeviceFault;
use ports::interface::Port;
use sets::stores::SetStore;

/// Reads a number, puts it into the set in a slot, and writes it.
pub fn pass_on<S: SetStore, P: Port>(
    store: &mut S,
    port: &mut P,
    slot: u8,
) -> Result<(), DeviceFault>
    ensures gives { result ≡ pass_gives slot (P.meaning port.old) (S.sets store.old) }
    ensures sets { S.sets store.new ≡ pass_sets slot (P.meaning port.old) (S.sets store.old) }
    ensures leaves { P.meaning port.new ≡ pass_leaves slot (P.meaning port.old) (S.sets store.old) }
    ensures lent { (S.lent store.new ≡ S.lent store.old) × (P.lent port.new ≡ P.lent port.old) }
{
    let n = port.read()?;
    store.add(slot, n)?;
    port.write(n)?;
    Ok(())
}
