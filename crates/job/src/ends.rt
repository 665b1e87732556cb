// How a job ends.
ghost use Rattle.std.specs.Prelude.{◌≡◌, ◌+◌, ◌*◌, ◌≤◌, length};
ghost use Rattle.job.specs.Groups.{fits, fails, answer_by, output_by};
ghost use Rattle.job.specs.Promise.{Does};

use crate::freedoms::loose;
use crate::outputs::hand_out;
use crate::refusals::verdict;
use crate::sweeps::all_groups;
use crate::{Area, Doing, Failing};
use answer::Answer;
use groups::Grouping;
use sketch::{Build, Ending};

// Every group is fitted.
fn fitted(b: &Build, gr: &Grouping, d: &Doing, out: &mut [f64]) -> Answer
    requires { (b.now.point_count ≤ 40) × (b.now.measure_count ≤ 20) × (2 * b.now.point_count + b.now.measure_count ≤ length out.old) × (d.now.freedom ≤ 3200) }
    ensures answer { result ≡ answer_by b.now gr.now (fits d.now) }
    ensures output { out.new ≡ output_by b.now gr.now (fits d.now) out.old }
{
    hand_out(b, &d.points, out);
    let freedom = d.freedom + 2 * loose(b, gr);
    // The plate is cut from the points that are handed out, so its worst is taken there.
    let n = 2 * b.point_count;
    let worst = plate::worst(b, &out[..n]);
    Answer::fitted(gr.count.min(40), d.groups, freedom, worst)
}

// A group does not converge, and this is answered of it.
fn failed(b: &Build, gr: &Grouping, e: Failing, p: &mut Area, q: &mut Area, r: &mut Area) -> Answer
    ensures { result ≡ answer_by b.now gr.now (fails e.group e.failure) }
{
    let f = fit::set_out(&b.points, gr, e.group);
    // Where the areas have room, none is refused.
    let suspects = fit::suspects(b, &f, p, q, r).unwrap_or([false; 40]);
    Answer::failed(e.failure, suspects)
}

// The job on a build: the points go to the head of out, the measures after them. The fits take the first 6,400 places of each area,
// which are +0.0 afterwards.
pub fn solve(b: &Build, out: &mut [f64], p: &mut [f64], q: &mut [f64], r: &mut [f64]) -> Answer
    ensures { Does b.now out.old p.old q.old r.old out.new p.new q.new r.new result }
{
    if let Err(e) = verdict(b, out.len(), p.len(), q.len(), r.len()) {
        return Answer::refused(e);
    }
    // The verdict has seen to it that there is room. From here on an area's type says how long it is.
    let Some(p) = p.first_chunk_mut::<6400>() else {
        return Answer::refused(Ending::TooShort);
    };
    let Some(q) = q.first_chunk_mut::<6400>() else {
        return Answer::refused(Ending::TooShort);
    };
    let Some(r) = r.first_chunk_mut::<6400>() else {
        return Answer::refused(Ending::TooShort);
    };
    let gr = groups::groups(b);
    let a = match all_groups(b, &gr, gr.count.min(40), p, q, r) {
        Ok(d) => fitted(b, &gr, &d, out),
        Err(e) => failed(b, &gr, e, p, q, r),
    };
    p.fill(0.0);
    q.fill(0.0);
    r.fill(0.0);
    a
}
