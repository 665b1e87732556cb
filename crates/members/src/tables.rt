// The place of each number in a list, as a filled table.
ghost use Rattle.std.specs.Prelude.{◌≡◌, ◌≤◌};
ghost use Rattle.members.specs.Lists.{numbers_of};
ghost use Rattle.members.specs.Movable.{indices_of};
ghost use Rattle.members.specs.Tables.{table_of, places_of, columns_of};

use crate::{Coordinates, Listed, Points};

// The listed numbers get their places, from 0 on; the others have `other`.
fn table<const N: usize>(l: &Listed<N>, other: u8) -> [u8; N]
    requires { N ≤ 256 }
    ensures { result ≡ table_of N other (numbers_of l.now) }
{
    let mut t = [other; N];
    for (k, c) in l.numbers().iter().enumerate() {
        slices::put(&mut t, *c, k as u8);
    }
    t
}

// The place of each point among a group's, 0 where it is not among them: `binary_search` with its fallback.
pub fn places(l: &Points) -> [u8; 40]
    ensures { result ≡ places_of (numbers_of l.now.0) }
{
    table(&l.0, 0)
}

// The position of each coordinate among the free ones, 255 where it is fixed.
pub fn columns(f: &Coordinates) -> [u8; 80]
    ensures { result ≡ columns_of (indices_of f.now) }
{
    table(&f.0, 255)
}
