// The lines of a reply.
ghost use Rattle.std.specs.Prelude.{◌≡◌, ◌<◌};

use crate::writer::Writer;
use answer::{Answer, GroupFit};
use sketch::Ending;

impl Writer<'_> {
    ghost use Rattle.reply.specs.Laid.{laying};
    ghost use Rattle.reply.specs.Lines.{status_line, total_lines, group_line, failed_line, point_line, measure_line};
    ghost use Rattle.reply.specs.Theorems.{c_line};

    #[tactic(auto, unfolding(crate::specs::Lines::status_line))]
    pub(crate) fn status_line(&mut self, e: Ending)
        ensures { self.new ≡ laying (status_line e) self.old }
    {
        self.word(b"status=");
        self.whole(usize::from(e), b'\n');
    }

    #[tactic(auto, unfolding(crate::specs::Lines::total_lines))]
    pub(crate) fn total_lines(&mut self, a: &Answer)
        ensures { self.new ≡ laying (total_lines a.now) self.old }
    {
        self.word(b"groups=");
        self.whole(a.group_count, b'\n');
        self.word(b"freedom=");
        self.whole(a.freedom, b'\n');
        self.word(b"worst=");
        self.float(a.worst, b'\n');
    }

    #[tactic(auto, unfolding(crate::specs::Lines::group_line))]
    pub(crate) fn group_line(&mut self, g: &GroupFit)
        ensures { self.new ≡ laying (group_line g.now) self.old }
    {
        self.word(b"g=");
        self.whole(g.lowest, b',');
        self.whole(g.freedom, b',');
        self.whole(g.iterations, b',');
        self.whole(g.tries, b'\n');
    }

    #[tactic(auto, unfolding(crate::specs::Lines::failed_line))]
    pub(crate) fn failed_line(&mut self, failing: &GroupFit)
        ensures { self.new ≡ laying (failed_line failing.now) self.old }
    {
        self.word(b"g=");
        self.whole(failing.lowest, b',');
        self.whole(failing.iterations, b',');
        self.whole(failing.tries, b',');
        self.whole(failing.code, b',');
        self.whole(failing.column, b'\n');
    }

    pub(crate) fn suspect_line(&mut self, k: usize)
        ensures { self.new ≡ laying (c_line k) self.old }
    {
        self.word(b"c=");
        self.whole(k, b'\n');
    }

    #[tactic(auto, using(crate::proofs::Laws::nan_is), unfolding(crate::specs::Lines::point_line))]
    pub(crate) fn point_line(&mut self, out: &[f64], i: usize)
        requires { i < 40 }
        ensures { self.new ≡ laying (point_line out.now i) self.old }
    {
        self.word(b"x=");
        self.float(slices::get_or(out, 2 * i, f64::NAN), b',');
        self.float(slices::get_or(out, 2 * i + 1, f64::NAN), b'\n');
    }

    #[tactic(auto, using(crate::proofs::Laws::nan_is), unfolding(crate::specs::Lines::measure_line))]
    pub(crate) fn measure_line(&mut self, out: &[f64], k: usize)
        ensures { self.new ≡ laying (measure_line out.now k) self.old }
    {
        self.word(b"m=");
        self.float(slices::get_or(out, k, f64::NAN), b'\n');
    }
}
