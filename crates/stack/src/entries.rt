//! What a kind of entry says of its own stack.
ghost use Rattle.std.specs.Prelude.{ℕ};

/// A kind of entry. The ghost members are the two constants, as contracts name them.
pub trait Entry: Copy {
    ghost LIMIT: { ℕ };

    ghost OVERFLOW: { ℕ };

    /// How many entries of this kind there may be.
    const LIMIT: usize;

    /// The number of the refusal of one more.
    const OVERFLOW: u8;
}
