//! The height of a stack, and a guard that puts it back.
ghost use Rattle.std.specs.Prelude.{◌≡◌};

/// How many entries a stack has.
#[derive(PartialEq, Eq, Debug, Drop)]
pub struct Height {
    pub entries: usize,
}

/// A guard over a height: when it goes, the height is again what it was when the guard was made.
pub struct Restore<'a> {
    pub height: &'a mut Height,
    saved: usize,
}

impl<'a> Restore<'a> {
    pub fn new(height: &'a mut Height) -> Restore<'a>
        ensures saved { result.saved ≡ height.old.entries }
        ensures same { result.height.now ≡ height.old }
        ensures lent { result.height.ghost_name ≡ height.entry.ghost_name }
    {
        let saved = height.entries;
        Restore { height, saved }
    }
}

impl Drop for Restore<'_> {
    fn drop(self)
        ensures { self.exit.0.now.entries ≡ self.entry.saved }
    {
        let Restore { height, saved } = self;
        height.entries = saved;
    }
}
