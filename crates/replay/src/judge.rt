// One record: whether its reply is the one that the text has.
ghost use Rattle.std.specs.Prelude.{◌≡◌};
ghost use Rattle.replay.specs.Judged.{same_bytes, answered};

// Whether `recorded` is the reply to the job `text`, to the last byte.
pub(crate) fn is_reply(text: &[u8], recorded: &[u8]) -> bool
    ensures { result ≡ same_bytes (answered text.now) recorded.now }
{
    // No reply is longer.
    let mut reply = [0u8; 8192];
    let mut p = [0.0; 6400];
    let mut q = [0.0; 6400];
    let mut r = [0.0; 6400];
    let n = run::run(text, &mut reply, &mut p, &mut q, &mut r);
    &reply[..n] == recorded
}
