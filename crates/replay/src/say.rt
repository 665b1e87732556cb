// What the program says on standard output.
use crate::tally::Tally;
use std::{fmt, io};

impl fmt::Display for Tally {
    fn fmt<W: fmt::Write>(&self, f: &mut fmt::Formatter<W>) -> fmt::Result {
        write!(f, "{} same, {} differ", self.same, self.differ)
    }
}

pub(crate) fn cannot(rt: HostRuntime, why: &str) -> io::Result<()> {
    println!(rt; "jobs.pack {why}")
}

// Where it can't be said, the count still tells that a job differs.
pub(crate) fn differs(rt: HostRuntime, i: usize) {
    let _ = println!(rt; "job {i} differs");
}

// The counts, and where the records end before the pack does, those words too: such a pack never reads as one that is the same.
pub(crate) fn outcome(rt: HostRuntime, t: Tally, len: usize) -> io::Result<()> {
    if t.at < len {
        return println!(rt; "{t}, and no whole record at byte {}", t.at);
    }
    println!(rt; "{t}")
}
