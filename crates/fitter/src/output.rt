// The reply on standard output.
ghost use Rattle.std.specs.Counts.{IsPrefixLen};
ghost use Rattle.fitter.specs.Answered.{answered};
ghost use Rattle.std.specs.Prelude.{◌≡◌, take};

use std::io;
use std::io::Write;

// Lays the reply to a text at the head of `reply`, and answers its length.
fn lay(text: &[u8], reply: &mut [u8; 8192]) -> usize
    ensures prefix_len { IsPrefixLen result reply.new }
    ensures reply_after { take result reply.new ≡ answered text.now }
{
    let mut p = [0.0; 6400];
    let mut q = [0.0; 6400];
    let mut r = [0.0; 6400];
    run::run(text, reply, &mut p, &mut q, &mut r)
}

// Writes the reply to a text. Nothing is promised of what the system takes, so a write that fails is only said.
pub(crate) fn answer(rt: HostRuntime, text: &[u8]) -> io::Result<()> {
    // No reply is longer.
    let mut reply = [0u8; 8192];
    let n = lay(text, &mut reply);
    match rt.stdout().write_all(&reply[..n]) {
        Ok(()) => Ok(()),
        Err(e) => eprintln!(rt; "fitter: standard output: {e}"),
    }
}
