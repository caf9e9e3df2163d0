// What the program reads: a job, and the sheet files that its lines name.
use anyhow::anyhow;
use std::alloc::AllocError;
use std::fs;
use std::fs::File;
use std::io::Read;

#[derive(Drop)]
pub(crate) enum Source {
    Help,
    Job(Vec<u8>),
}

// A file's last line ends with the file.
fn end_line(job: &mut Vec<u8>) -> Result<(), AllocError> {
    let is_ended = matches!(job.as_slice(), [] | [.., b'\n']);
    if !is_ended {
        job.push(b'\n')?;
    }
    Ok(())
}

fn read_standard_input(rt: &HostRuntime, job: &mut Vec<u8>) -> anyhow::Result<()> {
    rt.stdin().read_to_end(job)?;
    Ok(())
}

fn read_file(rt: &HostRuntime, name: &str, job: &mut Vec<u8>) -> anyhow::Result<()> {
    File::open(rt, name)?.read_to_end(job)?;
    Ok(())
}

// Adds a file to the job, or standard input for a hyphen.
fn add_file(rt: &HostRuntime, name: &str, job: &mut Vec<u8>) -> anyhow::Result<()> {
    let result = if name == "-" {
        read_standard_input(rt, job)
    } else {
        read_file(rt, name, job)
    };
    if let Err(fault) = result {
        return Err(anyhow!("{name}: {fault}"));
    }
    end_line(job)?;
    Ok(())
}

// The files that the arguments name, one after another, or standard input. Lines are numbered through all of them.
pub(crate) fn read_job(rt: &HostRuntime, args: &[String]) -> anyhow::Result<Source> {
    let mut job = Vec::new(rt.alloc());
    if args.is_empty() {
        read_standard_input(rt, &mut job)?;
    }
    for name in args {
        if name.as_str() == "--help" {
            return Ok(Source::Help);
        }
        add_file(rt, name.as_str(), &mut job)?;
    }
    Ok(Source::Job(job))
}

// A sheet file that a line names.
pub(crate) fn read_sheets(rt: &HostRuntime, name: &[u8]) -> anyhow::Result<Vec<u8>> {
    let name = std::str::from_utf8(name)?;
    Ok(fs::read(rt, name)?)
}
