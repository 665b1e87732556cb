// The check before a fit: document 01's 3, 4, 5 and 6, in 01's order.
ghost use Rattle.std.specs.Prelude.{◌≡◌};
ghost use Rattle.sketch.specs.Check.{over_bound, over_rows, Checks};
ghost use Rattle.sketch.specs.Indices.{found_build};
ghost use Rattle.sketch.specs.Numbers.{bounded_build};

use crate::counts::rows_of_all;
use crate::indices::{equations_found, lines_found, measures_found};
use crate::numbers::{equations_bounded, is_sized, measures_bounded, points_bounded, vec_bounded};
use crate::{Build, Ending};

// 3: a count over its bound.
pub fn counts_over(b: &Build) -> bool
    ensures { result ≡ over_bound b.now }
{
    (b.point_count > 40) | (b.line_count > 40) | (b.equation_count > 40) | (b.measure_count > 20)
}

fn build_bounded(b: &Build) -> bool
    ensures { result ≡ bounded_build b.now }
{
    vec_bounded(b.centre)
        & is_sized(b.size)
        & points_bounded(b.points())
        & equations_bounded(b.equations())
        & measures_bounded(b.measures())
}

fn build_found(b: &Build) -> bool
    ensures { result ≡ found_build b.now }
{
    lines_found(b.lines(), b.point_count)
        & equations_found(b.equations(), b.point_count, b.line_count)
        & measures_found(b.measures(), b.point_count, b.line_count)
}

fn rows_over(b: &Build) -> bool
    ensures { result ≡ over_rows b.now }
{
    64 < rows_of_all(b.equations())
}

// What a build ends in before its fit, or nothing where it passes. The counts come first: the others look at as many items as they say.
#[tactic(auto, unfolding(crate::specs::Check::check_of))]
pub fn check(b: &Build) -> Result<(), Ending>
    ensures { Checks b.now result }
{
    if counts_over(b) {
        return Err(Ending::TooMany);
    }
    if !build_bounded(b) {
        return Err(Ending::OutOfBounds);
    }
    if !build_found(b) {
        return Err(Ending::NoSuchItem);
    }
    if rows_over(b) {
        return Err(Ending::TooManyRows);
    }
    Ok(())
}
