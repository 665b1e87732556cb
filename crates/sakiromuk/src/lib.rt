// A job on a text, for programs in C and in Rust: bindings/c/sakiromuk.h and bindings/rust say how it is called. The crate has the name of the
// archive that they link, libsakiromuk.a.

#![tactic(auto)]

ghost use Rattle.run.specs.Promise.{Runs};

#[unsafe(no_mangle)]
pub extern "C" fn sakiromuk_run(
    s: &[u8],
    reply: &mut [u8],
    p: &mut [f64],
    q: &mut [f64],
    r: &mut [f64],
) -> usize
    ensures { Runs s.now reply.old p.old q.old r.old reply.new p.new q.new r.new result }
{
    run::run(s, reply, p, q, r)
}
