// A half that is only read, lent with its number of rows: the largest of its diagonal, and the half spread to the whole matrix, each number
// to its place and to its mirror's.
ghost use Rattle.std.specs.Prelude.{◌≡◌, ◌*◌, ◌≤◌, ◌<◌, length};
ghost use Rattle.loops.specs.Turns.{up_to};
ghost use Rattle.normal.specs.Half.{triangle, spread_row, half_largest_of};

use crate::half::triangle;

#[derive(Clone, Copy)]
pub(crate) struct Half<'a> {
    pub(crate) numbers: &'a [f64],
    pub(crate) rows: usize,
    ghost few: { rows ≤ 80 },
    ghost room: { triangle rows ≤ length numbers.now },
}

impl Half<'_> {
    pub(crate) fn largest(&self) -> f64
        ensures { result ≡ half_largest_of self.now.rows self.now.numbers.now }
    {
        let mut m = 0.0;
        for i in 0..self.rows {
            m = floats::max(m, self.numbers[triangle(i) + i]);
        }
        m
    }

    fn spread_row(&self, w: &mut [f64], i: usize)
        requires { (i < self.now.rows) × (self.now.rows * self.now.rows ≤ length w.old) }
        ensures { w.new ≡ spread_row self.now.rows self.now.numbers.now i w.old }
    {
        let t = triangle(i);
        for k in 0..i + 1 {
            let v = self.numbers[t + k];
            w[i * self.rows + k] = v;
            w[k * self.rows + i] = v;
        }
    }

    // Every place of w gets a number, whatever it held.
    pub(crate) fn spread(&self, w: &mut [f64])
        requires { self.now.rows * self.now.rows ≤ length w.old }
        ensures { w.new ≡ up_to self.now.rows 0 (spread_row self.now.rows self.now.numbers.now) w.old }
    {
        for i in 0..self.rows {
            self.spread_row(w, i);
        }
    }
}
