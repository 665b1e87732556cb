// The writer: a job's answer and output to the bytes of its reply (document 01, "The text"; document 02, K6).

#![tactic(auto)]

ghost use Rattle.std.specs.Prelude.{◌≡◌, ◌≤◌, length};
ghost use Rattle.reply.specs.Promise.{Writes, written_of};
ghost use Rattle.reply.specs.Reply.{reply_of};

mod figures;
mod lines;
mod parts;
mod writer;

use answer::Answer;
use parts::Output;
use writer::Writer;

// Lays the reply at the head of `reply`, as much of it as there is room for, and answers how long it is.
fn lay(reply: &mut [u8], a: &Answer, o: Output) -> usize
    ensures length { result ≡ length (reply_of a.now o.entry.out.now o.entry.points o.entry.measures) }
    ensures room { result ≤ length reply.old → reply.new ≡ written_of (reply_of a.now o.entry.out.now o.entry.points o.entry.measures) reply.old }
{
    let mut w = Writer { reply, at: 0 };
    w.reply(a, o);
    w.at
}

// Writes the reply to the head of `reply` where it has room for it, and nothing otherwise. Answers how long the reply is.
pub fn write(a: &Answer, points: usize, measures: usize, out: &[f64], reply: &mut [u8]) -> usize
    ensures { Writes a.now out.now points measures reply.old reply.new result }
{
    let o = Output {
        out,
        points,
        measures,
    };
    // No reply is longer, so that with this room it is laid at once.
    if 8192 <= reply.len() {
        return lay(reply, a, o);
    }
    // Where there is no room, laying only counts.
    let n = lay(&mut [], a, o);
    if n <= reply.len() {
        lay(reply, a, o);
    }
    n
}
