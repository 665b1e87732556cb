// The endings by document 01's numbers.
ghost use Rattle.std.specs.Prelude.{◌≡◌};
ghost use Rattle.sketch.specs.Check.{number_of};

use crate::Ending;

impl From<Ending> for usize {
    ghost from_gives = { λ e n. n ≡ number_of e };

    fn from(e: Ending) -> usize {
        match e {
            Ending::Fitted => 0,
            Ending::TooLong => 1,
            Ending::BadForm => 2,
            Ending::TooMany => 3,
            Ending::OutOfBounds => 4,
            Ending::NoSuchItem => 5,
            Ending::TooManyRows => 6,
            Ending::NotConverged => 7,
            Ending::TooShort => 9,
        }
    }
}
