// The problem as the functions below take it: what lists its tables and slices hold, and its residuals and Jacobian.
ghost use Rattle.std.specs.Prelude.{◌≡◌, ◌+◌, ◌*◌, ◌≤◌, ◌++◌, length, drop};

use rows::Located;
use sketch::{Active, Line};

// What is posed, by the numbers that are listed: at most 40 equations, and at most 80 coordinates.
#[derive(Clone, Copy)]
pub(crate) struct Task<'a> {
    pub(crate) equations: &'a [Active; 40],
    pub(crate) lines: &'a [Line; 40],
    pub(crate) chosen: &'a [usize],
    pub(crate) places: &'a [u8],
    pub(crate) columns: &'a [u8],
    pub(crate) free: &'a [usize],
    ghost few: { length chosen.now ≤ 40 },
    ghost narrow: { length free.now ≤ 80 },
}

impl Task<'_> {
    ghost use Rattle.rounds.specs.Inside.{rows_in, values_in, jacobian_in};

    // The residuals at x go to the head of r; how many they are.
    #[tactic(auto, using(crate::proofs::Column::column_is, crate::proofs::Column::rows_few))]
    pub(crate) fn values(&self, x: &[f64], r: &mut [f64]) -> usize
        requires { rows_in self.now ≤ length r.old }
        ensures few { result ≤ 80 }
        ensures count { result ≡ rows_in self.now }
        ensures values { r.new ≡ values_in self.now x.now ++ drop (rows_in self.now) r.old }
    {
        rows::residuals(
            self.equations,
            self.lines,
            self.chosen,
            Located {
                places: self.places,
                x,
            },
            r,
        )
    }

    // The Jacobian at x, over the whole of j.
    #[tactic(auto, using(crate::proofs::Column::whole_table))]
    pub(crate) fn jacobian(&self, x: &[f64], j: &mut [f64])
        requires { length j.old ≡ rows_in self.now * length self.now.free.now }
        ensures { j.new ≡ jacobian_in self.now x.now }
    {
        slopes::jacobian(
            self.equations,
            self.lines,
            self.chosen,
            Located {
                places: self.places,
                x,
            },
            self.columns,
            self.free.len(),
            j,
        );
    }
}
