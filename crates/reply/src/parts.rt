// The parts of a reply: lines of one sort after another.
ghost use Rattle.std.specs.Prelude.{◌≡◌, min};

use crate::writer::Writer;
use answer::Answer;
use sketch::Ending;

// The numbers that a fit handed out: two for each point, then one for each measure.
#[derive(Clone, Copy)]
pub(crate) struct Output<'a> {
    pub(crate) out: &'a [f64],
    pub(crate) points: usize,
    pub(crate) measures: usize,
}

impl Writer<'_> {
    ghost use Rattle.reply.specs.Laid.{laying};
    ghost use Rattle.reply.specs.Reply.{output_lines, fitted_lines, failed_lines, reply_of};

    #[tactic(auto, using(crate::proofs::Laws::rising_none, crate::proofs::Laws::rising_next), unfolding(crate::specs::Reply::output_lines))]
    fn output_lines(&mut self, o: Output)
        ensures { self.new ≡ laying (output_lines o.entry.out.now (min o.entry.points 40) (min o.entry.measures 20)) self.old }
    {
        // A job has no more of either. By number: a NaN is printed for what stands past the end of `out`.
        let points = o.points.min(40);
        for i in 0..points {
            self.point_line(o.out, i);
        }
        for j in 0..o.measures.min(20) {
            self.measure_line(o.out, 2 * points + j);
        }
    }

    #[tactic(auto, using(crate::proofs::Laws::rising_none, crate::proofs::Laws::rising_next), unfolding(crate::specs::Reply::fitted_lines))]
    fn fitted_lines(&mut self, a: &Answer, o: Output)
        ensures { self.new ≡ laying (fitted_lines a.now o.entry.out.now (min o.entry.points 40) (min o.entry.measures 20)) self.old }
    {
        self.total_lines(a);
        for g in a.groups() {
            self.group_line(g);
        }
        self.output_lines(o);
    }

    #[tactic(auto, using(crate::proofs::Laws::rising_none, crate::proofs::Laws::rising_next), unfolding(crate::specs::Reply::failed_lines))]
    fn failed_lines(&mut self, a: &Answer)
        ensures { self.new ≡ laying (failed_lines a.now) self.old }
    {
        self.failed_line(&a.groups[0]);
        for (k, marked) in a.suspects.iter().enumerate() {
            if *marked {
                self.suspect_line(k);
            }
        }
    }

    #[tactic(auto, unfolding(crate::specs::Reply::reply_of))]
    pub(crate) fn reply(&mut self, a: &Answer, o: Output)
        ensures { self.new ≡ laying (reply_of a.now o.entry.out.now o.entry.points o.entry.measures) self.old }
    {
        self.status_line(a.ending);
        match a.ending {
            Ending::Fitted => self.fitted_lines(a, o),
            Ending::NotConverged => self.failed_lines(a),
            Ending::TooLong
            | Ending::BadForm
            | Ending::TooMany
            | Ending::OutOfBounds
            | Ending::NoSuchItem
            | Ending::TooManyRows
            | Ending::TooShort => {}
        }
    }
}
