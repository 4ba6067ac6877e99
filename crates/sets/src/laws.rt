//! The laws of sets and of slots.
ghost use Rattle.sets.specs.Laws.{SetLaws, SlotLaws};

/// Does nothing: its contract states what is proved of sets and of slots.
pub fn sets_stand()
    ensures sets { SetLaws }
    ensures slots { SlotLaws }
{}
