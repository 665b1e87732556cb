// The items of a job: so many lines of one sort.
ghost use Rattle.std.specs.Prelude.{◌≡◌, ◌≤◌, List, ℕ, length, take, drop};
ghost use Rattle.spelling.specs.Places.{Read};
ghost use Rattle.text.specs.Items.{items_with, items_at};

// What has a line of its own in a text.
pub(crate) trait Item: Copy {
    ghost reads: { List ℕ → ℕ → Read Self };

    fn line(s: &[u8], at: usize) -> Result<(Self, usize), usize>
        ensures { result ≡ reads s.now at };
}

// The next n items, into the first n places; gives the place in the text after them. n stands beside the places: lent as a part of
// a build's array, they would have no name in the caller's proof afterwards.
pub(crate) fn items<T: Item>(
    s: &[u8],
    at: usize,
    n: usize,
    places: &mut [T],
) -> Result<usize, usize>
    requires { n ≤ length places.old }
    ensures read { items_with (take n places.new) result ≡ items_at T.reads n s.now at }
    ensures kept { drop n places.new ≡ drop n places.old }
{
    let mut next = at;
    // By index: the first n alone, and what is written through `take` over `iter_mut` no proof knows afterwards.
    for i in 0..n {
        let (item, after) = T::line(s, next)?;
        places[i] = item;
        next = after;
    }
    Ok(next)
}
