// Prints the billing demands of a month of sheets.
#![tactic(auto)]

use desk::demands::run;
use std::io::{BufWriter, Write};
use std::process::ExitCode;

fn main(rt: HostRuntime) -> anyhow::Result<ExitCode> {
    let mut out = BufWriter::new(rt.alloc(), rt.stdout())?;
    let mut faults = BufWriter::new(rt.alloc(), rt.stderr())?;
    let result = run(&rt, &mut out, &mut faults);
    if let Err(fault) = &result {
        writeln!(faults, "demands: {fault}")?;
    }
    out.flush()?;
    faults.flush()?;
    match result {
        Ok(true) => Ok(ExitCode::SUCCESS),
        Ok(false) | Err(_) => Ok(ExitCode::FAILURE),
    }
}
