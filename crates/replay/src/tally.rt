// The records of a pack, one after another, and how many are the same.
ghost use Rattle.std.specs.Prelude.{◌≡◌, length};
ghost use Rattle.replay.specs.Records.{Within};
ghost use Rattle.replay.specs.Counted.{one_more, counted_of, judged_of, turn_of, tally_of};

use crate::judge::is_reply;
use crate::records::{Record, record_at};
use crate::say::differs;

// Where the next record starts, and how the ones before it came out.
#[derive(Clone, Copy)]
pub struct Tally {
    pub at: usize,
    pub same: usize,
    pub differ: usize,
}

// A record has at least a byte, so no count comes near the bound, which keeps it from wrapping.
#[tactic(auto, unfolding(crate::specs::Counted::one_more))]
fn one_more(n: usize) -> usize
    ensures { result ≡ one_more n }
{
    if n < 1_000_000_000 { n + 1 } else { n }
}

#[tactic(auto, unfolding(crate::specs::Counted::counted_of))]
fn counted(t: Tally, end: usize, same: bool) -> Tally
    ensures { result ≡ counted_of t end same }
{
    if same {
        Tally {
            at: end,
            same: one_more(t.same),
            ..t
        }
    } else {
        Tally {
            at: end,
            differ: one_more(t.differ),
            ..t
        }
    }
}

// Of the records that differ the first ten are told.
fn tell(rt: HostRuntime, i: usize, told: usize, same: bool) {
    if !same & (told < 10) {
        differs(rt, i);
    }
}

// Record i is judged.
#[tactic(auto, unfolding(crate::specs::Counted::judged_of))]
fn judged(rt: HostRuntime, s: &[u8], i: usize, r: Record, t: Tally) -> Tally
    requires { Within r (length s.now) }
    ensures { result ≡ judged_of s.now r t }
{
    let same = is_reply(&s[r.text..r.reply], &s[r.reply..r.end]);
    tell(rt, i, t.differ, same);
    counted(t, r.end, same)
}

// One record more. Where there is none the tally stays as it is, so that its place is before the pack's end.
#[tactic(auto, unfolding(crate::specs::Counted::turn_of))]
fn turn(rt: HostRuntime, s: &[u8], i: usize, t: Tally) -> Tally
    ensures { result ≡ turn_of s.now i t }
{
    match record_at(s, t.at) {
        Ok(r) => judged(rt, s, i, r, t),
        Err(_) => t,
    }
}

// There are no more records than bytes; past the last one a turn finds nothing.
pub(crate) fn count(rt: HostRuntime, s: &[u8]) -> Tally
    ensures { result ≡ tally_of s.now }
{
    let mut t = Tally {
        at: 0,
        same: 0,
        differ: 0,
    };
    for i in 0..s.len() {
        t = turn(rt, s, i, t);
    }
    t
}
