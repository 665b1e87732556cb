// The text on standard input.
ghost use Rattle.std.specs.Prelude.{◌≡◌, length};
ghost use Rattle.std.specs.Io.{ReadsAtMost};
ghost use Rattle.fitter.specs.Taken.{outcome_of};

use std::io;
use std::io::Read;

// What a read of `rest` answered: an error is a read that failed, and a number how many bytes it put at the start, none at the end of
// the input.
fn outcome(got: io::Result<usize>, rest: &[u8]) -> io::Result<usize>
    ensures taken { ReadsAtMost result rest.now }
    ensures value { result ≡ outcome_of got (length rest.now) }
{
    Ok(got?.min(rest.len()))
}

// One read into `rest`.
fn more(rt: HostRuntime, rest: &mut [u8]) -> io::Result<usize>
    ensures { ReadsAtMost result rest.new }
{
    let got = rt.stdin().read(rest);
    outcome(got, rest)
}

// Reads until `text` is full, the input ends or a read fails: a failed read is no end.
pub(crate) fn read(rt: HostRuntime, text: &mut [u8]) -> io::Result<usize>
    ensures { ReadsAtMost result text.new }
{
    let mut done = 0;
    while done < text.len() {
        let n = more(rt, &mut text[done..])?;
        if n == 0 {
            break;
        }
        done += n;
    }
    Ok(done)
}
