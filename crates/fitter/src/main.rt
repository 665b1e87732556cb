// A job on standard input, its reply on standard output. What cannot be read, and a reply that cannot be written whole, is said on
// standard error, and a text that was not read to its end has no reply.

#![tactic(auto)]

mod input;
mod output;

use std::io;

fn main(rt: HostRuntime) -> io::Result<()> {
    // One byte more than a text may have, so that a longer one is known to be too long.
    let mut text = [0u8; 16385];
    match input::read(rt, &mut text) {
        Ok(n) => output::answer(rt, &text[..n]),
        Err(e) => eprintln!(rt; "fitter: standard input: {e}"),
    }
}
