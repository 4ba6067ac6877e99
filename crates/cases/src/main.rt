//! Runs a file of cases through the library, and says which come out otherwise than they should.
#![tactic(auto)]

ghost use Rattle.std.specs.Prelude.{◌≡◌, ◌↔◌, IfOk, IsTrue};
ghost use Rattle.cases.specs.Listings.{listing};
ghost use Rattle.text.specs.Lexings.{lexed};

mod files;
mod listing;

use files::{Case, CaseFile};
use listing::listed;
use std::alloc::AllocError;
use std::io::Read;

/// What came of the cases so far.
#[derive(Drop)]
struct Tally {
    cases: u64,
    differ: u64,
}

/// Runs one case: whether its text is taken apart as it should be.
fn agrees(rt: &HostRuntime, case: Case<'_>) -> anyhow::Result<bool>
    ensures { IfOk result (λ b. IsTrue b ↔ listing (lexed case.entry.script.now) ≡ case.entry.tokens.now) }
{
    // A listing is written into memory, so it fails only where memory runs out.
    let found = listed(rt.alloc(), case.script).map_err(|_| AllocError)?;
    Ok(found.as_slice() == case.tokens)
}

/// Runs the cases of a file.
fn run(rt: &HostRuntime, file: &[u8]) -> anyhow::Result<()> {
    let mut file = CaseFile::new(file);
    let mut tally = Tally {
        cases: 0,
        differ: 0,
    };
    while let Some(case) = file.next_case()? {
        tally.cases = tally.cases.saturating_add(1);
        if !agrees(rt, case)? {
            tally.differ = tally.differ.saturating_add(1);
            let number = case.number;
            println!(rt; "case {number} differs: tokens")?;
        }
    }
    let Tally { cases, differ } = tally;
    println!(rt; "{cases} cases, {differ} differ")?;
    Ok(())
}

fn main(rt: HostRuntime) -> anyhow::Result<()> {
    let mut file = Vec::new(rt.alloc());
    rt.stdin().read_to_end(&mut file)?;
    run(&rt, file.as_slice())
}
