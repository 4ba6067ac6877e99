//! The bench: what the craft would do with the script in the folder that it is run in.
#![tactic(auto)]

use account::report;
use std::fs;
use std::process::ExitCode;

const SCRIPT: &str = "script.lsd";

fn run(rt: &HostRuntime) -> anyhow::Result<()> {
    let script = fs::read(rt, SCRIPT)?;
    let line = report(rt.alloc(), script.as_slice())?;
    print!(rt; "{line}")?;
    Ok(())
}

fn main(rt: HostRuntime) -> anyhow::Result<ExitCode> {
    match run(&rt) {
        Ok(()) => Ok(ExitCode::SUCCESS),
        Err(error) => {
            eprintln!(rt; "bench: {SCRIPT}: {error}")?;
            Ok(ExitCode::FAILURE)
        }
    }
}
