// A job's text in, its reply out (document 01, "The text"). Nothing is refused but in the reply's own words.

#![tactic(auto)]

ghost use Rattle.run.specs.Promise.{Runs, RunsBuild};

use answer::Answer;
use sketch::Build;

// The reply to a text that was read.
fn reply_to(b: &Build, reply: &mut [u8], p: &mut [f64], q: &mut [f64], r: &mut [f64]) -> usize
    ensures { RunsBuild b.now reply.old p.old q.old r.old reply.new p.new q.new r.new result }
{
    // Two numbers for each of 40 points, and one for each of 20 measures.
    let mut out = [0.0; 100];
    let a = job::solve(b, &mut out, p, q, r);
    reply::write(&a, b.point_count, b.measure_count, &out, reply)
}

// Runs the job whose text is `s`. The answer is the room that the reply needs; where `reply` has it the reply is at its head, and
// where it has not, `reply` is as it was. The three work areas have room for 6,400 numbers each.
pub fn run(s: &[u8], reply: &mut [u8], p: &mut [f64], q: &mut [f64], r: &mut [f64]) -> usize
    ensures { Runs s.now reply.old p.old q.old r.old reply.new p.new q.new r.new result }
{
    match text::read(s) {
        Ok(b) => reply_to(&b, reply, p, q, r),
        Err(e) => reply::write(&Answer::refused(e), 0, 0, &[], reply),
    }
}
