// Calls on a whole build.
ghost use Rattle.std.specs.Prelude.{◌≡◌};
ghost use Rattle.groups.specs.Listed.{grouping_of};
ghost use Rattle.level.specs.Level.{level_of};
ghost use Rattle.measures.specs.Gauges.{measured_in};
ghost use Rattle.plate.specs.Worst.{worst_of};
ghost use Rattle.text.specs.Reader.{read_of};
ghost use Rattle.rooms_c.specs.Jobs.{built, laid_over, Grouped, SolvesText};

use sketch::Build;

// The build of a text, and one with nothing in it for a text that is refused.
pub(crate) fn build_of(text: &[u8]) -> Build
    ensures { result ≡ built (read_of text.now) }
{
    text::read(text).unwrap_or_else(|_| Build::empty())
}

fn lay(table: &[usize; 40], to: &mut [usize])
    ensures { to.new ≡ laid_over table.now to.old }
{
    let n = table.len().min(to.len());
    to[..n].copy_from_slice(&table[..n]);
}

// `groups::groups`: how many there are, and the group of each point and each equation, as far as there is room.
#[unsafe(no_mangle)]
pub extern "C" fn rooms_groups(text: &[u8], points: &mut [usize], equations: &mut [usize]) -> usize
    ensures { Grouped (grouping_of (built (read_of text.now))) points.old equations.old points.new equations.new result }
{
    let g = groups::groups(&build_of(text));
    lay(&g.of_point, points);
    lay(&g.of_equation, equations);
    g.count
}

// `level::level`
#[unsafe(no_mangle)]
pub extern "C" fn rooms_level(text: &[u8], points: &mut [f64])
    ensures { points.new ≡ level_of (built (read_of text.now)) points.old }
{
    level::level(&build_of(text), points);
}

// `measures::measures`
#[unsafe(no_mangle)]
pub extern "C" fn rooms_measures(text: &[u8], points: &[f64], out: &mut [f64])
    ensures { out.new ≡ measured_in (built (read_of text.now)) points.now out.old }
{
    measures::measures(&build_of(text), points, out);
}

// `plate::worst`
#[unsafe(no_mangle)]
pub extern "C" fn rooms_worst(text: &[u8], points: &[f64]) -> f64
    ensures { result ≡ worst_of (built (read_of text.now)) points.now }
{
    plate::worst(&build_of(text), points)
}

// `job::solve`, the library call itself, on a lent output: the number that it ends in. A text that is not read has its own.
#[unsafe(no_mangle)]
pub extern "C" fn rooms_solve(
    text: &[u8],
    out: &mut [f64],
    p: &mut [f64],
    q: &mut [f64],
    r: &mut [f64],
) -> usize
    ensures { SolvesText out.old p.old q.old r.old text.now out.new p.new q.new r.new result }
{
    match text::read(text) {
        Ok(b) => usize::from(job::solve(&b, out, p, q, r).ending),
        Err(e) => usize::from(e),
    }
}
