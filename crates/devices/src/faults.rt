//! One fault for a store and a port.
ghost use Rattle.std.specs.Prelude.{◌≡◌};
ghost use Rattle.devices.specs.declared.faults.DeviceFault.TheVariants.{Store, Port};
ghost use Rattle.devices.specs.Faults.{device_number, device_carries};

use ports::faults::PortFault;
use refusals::Fault;
use sets::faults::SetFault;

/// A fault with the layer that it comes from.
#[derive(Clone, Copy, PartialEq, Eq, Debug)]
pub enum DeviceFault {
    Store(SetFault),
    Port(PortFault),
}

impl From<SetFault> for DeviceFault {
    ghost from_gives = { λ e r. r ≡ Store e };

    fn from(fault: SetFault) -> DeviceFault {
        DeviceFault::Store(fault)
    }
}

impl From<PortFault> for DeviceFault {
    ghost from_gives = { λ e r. r ≡ Port e };

    fn from(fault: PortFault) -> DeviceFault {
        DeviceFault::Port(fault)
    }
}

impl Fault for DeviceFault {
    ghost number = { device_number };

    fn number(self) -> u8 {
        match self {
            DeviceFault::Store(fault) => fault.number(),
            DeviceFault::Port(fault) => fault.number(),
        }
    }
}

impl DeviceFault {
    /// The slot of a store's fault, or the number of a port's.
    pub fn carries(self) -> i32
        ensures { result ≡ device_carries self }
    {
        match self {
            DeviceFault::Store(fault) => i32::from(fault.slot()),
            DeviceFault::Port(fault) => fault.carries(),
        }
    }
}
