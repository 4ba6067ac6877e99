//! Theorems about the grammar and the nodes of scripts.
ghost use Rattle.syntax.specs.Laws.{Reads, Refuses, Worked};

/// A text is read exactly where it spells a script, as that script, and spells no other.
pub fn grammar_stands()
    ensures { Reads }
{}

/// A token is refused as a misfit only where what stands before it can go on to a script, and not with that token.
pub fn misfits_stand()
    ensures { Refuses }
{}

/// The worked shapes of expressions.
pub fn shapes_stand()
    ensures { Worked }
{}
