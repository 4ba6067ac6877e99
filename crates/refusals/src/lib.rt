//! What every refusal has in common: the number that it is known by.
//!
//! The refusals of a crate are enums of its own. By [`Fault`] one function can tell the number of any of them.
#![tactic(auto)]

ghost use Rattle.std.specs.Prelude.{◌≡◌, ℕ};

/// Why a call says no.
pub trait Fault: Copy {
    ghost number: { Self → ℕ };

    /// The number that the refusal is known by.
    fn number(self) -> u8
        ensures { result ≡ number self };
}
