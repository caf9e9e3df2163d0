// The program `demands` on a faulty file: what it tells of faults goes to standard output too, before the demands.
#![tactic(auto)]

use desk::demands::run;
use std::io::{BufWriter, Write};

fn main(rt: HostRuntime) -> anyhow::Result<()> {
    let mut out = BufWriter::new(rt.alloc(), rt.stdout())?;
    let mut faults = BufWriter::new(rt.alloc(), rt.stdout())?;
    let printed = run(&rt, &mut out, &mut faults)?;
    faults.flush()?;
    out.flush()?;
    println!(rt; "demands printed: {printed}")?;
    Ok(())
}
