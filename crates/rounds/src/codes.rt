// Document 02's code and column of how a fit ended: 0 where it did not fail.
ghost use Rattle.std.specs.Prelude.{◌≡◌};
ghost use Rattle.rounds.specs.Reasons.{code_of, named_column, code_in, named_column_in};

use crate::{Reason, Unfitted};

impl Reason {
    fn code(self) -> usize
        ensures { result ≡ code_of self }
    {
        match self {
            Reason::NothingFree => 1,
            Reason::NoPivot(_) => 2,
            Reason::NotFinite => 3,
            Reason::NotLess => 4,
            Reason::Spent => 5,
        }
    }

    fn column(self) -> usize
        ensures { result ≡ named_column self }
    {
        match self {
            Reason::NoPivot(column) => column,
            _ => 0,
        }
    }
}

pub fn code(ending: Result<(), Unfitted>) -> usize
    ensures { result ≡ code_in ending }
{
    match ending {
        Err(Unfitted::Failed(why)) => why.code(),
        _ => 0,
    }
}

pub fn named_column(ending: Result<(), Unfitted>) -> usize
    ensures { result ≡ named_column_in ending }
{
    match ending {
        Err(Unfitted::Failed(why)) => why.column(),
        _ => 0,
    }
}
