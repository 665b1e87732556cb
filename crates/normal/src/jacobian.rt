// The Jacobian of a round, lent: so many rows and columns, row after row.
ghost use Rattle.std.specs.Prelude.{◌≡◌, ◌*◌, ◌≤◌, ◌<◌, length};
ghost use Rattle.normal.specs.Normal.{rows_product, step_of};

#[derive(Clone, Copy)]
pub(crate) struct Jacobian<'a> {
    pub(crate) numbers: &'a [f64],
    pub(crate) rows: usize,
    pub(crate) columns: usize,
    ghost whole: { rows * columns ≤ length numbers.now },
}

impl Jacobian<'_> {
    // The product of rows i and k.
    #[tactic(auto, using(loops::proofs::Cells::cells))]
    pub(crate) fn rows_product(&self, i: usize, k: usize) -> f64
        requires { (i < self.now.rows) × (k < self.now.rows) }
        ensures { result ≡ rows_product self.now.columns self.now.numbers.now i k }
    {
        let p = i * self.columns;
        let q = k * self.columns;
        let mut s = -0.0;
        for c in 0..self.columns {
            s += self.numbers[p + c] * self.numbers[q + c];
        }
        s
    }

    // The product of column c and y.
    #[tactic(auto, using(loops::proofs::Cells::cells))]
    pub(crate) fn step_of(&self, y: &[f64], c: usize) -> f64
        requires { (c < self.now.columns) × (self.now.rows ≤ length y.now) }
        ensures { result ≡ step_of self.now.rows self.now.columns self.now.numbers.now y.now c }
    {
        let mut sum = -0.0;
        for i in 0..self.rows {
            sum += self.numbers[i * self.columns + c] * y[i];
        }
        sum
    }
}
