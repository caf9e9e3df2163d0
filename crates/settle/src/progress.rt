// How far a long job is, told on standard error where that is a terminal.
use std::io;
use std::io::IsTerminal;
use text::cuts::count_marks;

// A message for every so many lines.
const STEP: u64 = 1000;

// How many lines the job has, where its progress is shown.
#[derive(Clone, Copy)]
pub(crate) struct Progress(Option<usize>);

impl Progress {
    pub(crate) fn of(rt: &HostRuntime, job: &[u8]) -> Progress {
        Progress(rt.stderr().is_terminal().then(|| count_marks(job, b'\n')))
    }

    pub(crate) fn tell(&self, rt: &HostRuntime, line: u64) -> io::Result<()> {
        if let Some(lines) = self.0
            && line % STEP == 0
        {
            eprint!(rt; "\rsettle: line {line} of {lines}")?;
        }
        Ok(())
    }

    // While a file of sheets is posted.
    pub(crate) fn tell_sheets(&self, rt: &HostRuntime, line: u64, sheets: u64) -> io::Result<()> {
        if let Some(lines) = self.0
            && sheets % STEP == 0
        {
            eprint!(rt; "\rsettle: line {line} of {lines}, sheet {sheets}")?;
        }
        Ok(())
    }

    // Wipes the message away.
    pub(crate) fn end(&self, rt: &HostRuntime) -> io::Result<()> {
        if self.0.is_some() {
            eprint!(rt; "\r\x1b[K")?;
        }
        Ok(())
    }
}
