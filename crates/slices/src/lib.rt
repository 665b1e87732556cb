// Lent slices: places that need not be there, so that no caller has an index to prove, and why a call refuses what it is lent.

#![tactic(auto)]

ghost use Rattle.std.specs.Prelude.{◌≡◌, slice_index_or, slice_set};

// Why a call on lent slices did nothing to them.
#[derive(Clone, Copy, Debug, PartialEq, Eq)]
pub enum Refusal {
    // 3: more rows, columns or coordinates than the call takes.
    TooMany,
    // 9: a slice shorter than its shape.
    TooShort,
}

// What stands at i, and `other` past the end.
pub fn get_or<T: Copy>(s: &[T], i: usize, other: T) -> T
    ensures { result ≡ slice_index_or s.now i other }
{
    s.get(i).copied().unwrap_or(other)
}

// Puts v at i, and does nothing past the end.
pub fn put<T: Copy>(s: &mut [T], i: usize, v: T)
    ensures { s.new ≡ slice_set s.old i v }
{
    if i < s.len() {
        s[i] = v;
    }
}
