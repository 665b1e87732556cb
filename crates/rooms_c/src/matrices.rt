// `solver` and `nullspace`: bare matrices and lists.
ghost use Rattle.std.specs.Prelude.{◌≡◌, Err};
ghost use Rattle.floats.specs.Largest.{max_abs_of};
ghost use Rattle.solver.specs.Sums.{norm2_of};
ghost use Rattle.rooms_c.specs.Code.{SolvesC, SpansC, IsNamed, solved_code, rank_code, refusal_code};

use slices::Refusal;
use solver::Unsolved;

// Document 01's number of a refusal.
fn number(why: Refusal) -> usize
    ensures { result ≡ refusal_code why }
{
    match why {
        Refusal::TooMany => 3,
        Refusal::TooShort => 9,
    }
}

// `solver::solve_dense`: 0 solved, 3 and 9 refused, 255 a result that is not finite, 256 and the column, counted from 1, without a pivot.
#[unsafe(no_mangle)]
pub extern "C" fn rooms_solve_dense(a: &mut [f64], b: &mut [f64], n: usize) -> usize
    ensures { SolvesC n a.old b.old a.new b.new result }
{
    match solver::solve_dense(a, b, n) {
        Ok(()) => 0,
        Err(why) => code(why),
    }
}

fn code(why: Unsolved) -> usize
    requires { IsNamed (Err why) }
    ensures { result ≡ solved_code (Err why) }
{
    match why {
        Unsolved::NoPivot(column) => 256 + column,
        Unsolved::NotFinite => 255,
        Unsolved::Refused(why) => number(why),
    }
}

#[unsafe(no_mangle)]
pub extern "C" fn rooms_max_abs(v: &[f64]) -> f64
    ensures { result ≡ max_abs_of v.now }
{
    floats::max_abs(v)
}

#[unsafe(no_mangle)]
pub extern "C" fn rooms_norm2(v: &[f64]) -> f64
    ensures { result ≡ norm2_of v.now }
{
    solver::norm2(v)
}

// `nullspace::null_space`: the rank, or 256 and the number of a refusal.
#[unsafe(no_mangle)]
pub extern "C" fn rooms_null_space(
    m: &[f64],
    rows: usize,
    n: usize,
    work: &mut [f64],
    out: &mut [f64],
) -> usize
    ensures { SpansC rows n m.now work.old out.old work.new out.new result }
{
    rank_code(nullspace::null_space(m, rows, n, work, out))
}

fn rank_code(rank: Result<usize, Refusal>) -> usize
    ensures { result ≡ rank_code rank }
{
    rank.unwrap_or_else(|why| 256 + number(why))
}
