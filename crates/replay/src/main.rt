// The recorded answers of the Rust, run again where there is no Rust: the texts of jobs.pack go through the fitter, and every byte of the
// replies is compared.

#![tactic(auto)]

ghost use Rattle.std.specs.Io.{ReadsAtMost};

mod judge;
mod records;
mod say;
mod tally;

use say::{cannot, outcome};
use std::fs::File;
use std::io;
use std::io::Read;

// Reads until `pack` is full or the file ends, and answers how many bytes there are.
fn fill(file: &mut File, pack: &mut [u8]) -> io::Result<usize>
    ensures { ReadsAtMost result pack.new }
{
    let mut done = 0;
    while done < pack.len() {
        let n = file.read(&mut pack[done..])?;
        if n == 0 {
            break;
        }
        done += n;
    }
    Ok(done)
}

// Counts the records of jobs.pack in the room that is lent for it. A pack that fills it may have more than was read.
fn replay(rt: HostRuntime, pack: &mut [u8; 524288]) -> io::Result<()> {
    let Ok(mut file) = File::open(&rt, "jobs.pack") else {
        return cannot(rt, "cannot be opened");
    };
    let n = fill(&mut file, pack)?;
    if n == pack.len() {
        return cannot(rt, "is longer than the room for it");
    }
    outcome(rt, tally::count(rt, &pack[..n]), n)
}

fn main(rt: HostRuntime) -> io::Result<()> {
    let mut pack = [0u8; 524288];
    replay(rt, &mut pack)
}
