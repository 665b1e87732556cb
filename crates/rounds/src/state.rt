// The steps of the fit's state.
ghost use Rattle.std.specs.Prelude.{◌≡◌, ◌<◌};
ghost use Rattle.rounds.specs.Inside.{started_fit, taken_fit, harder_fit, begun_fit, polished_fit};
ghost use Rattle.rounds.specs.Promise.{saying};

use crate::{Fit, Reason, Solved, Unfitted};

impl Fit {
    // Iterations before giving up.
    pub const MAX_ITER: usize = 200;
    // Damping attempts of an iteration.
    pub const MAX_TRIES: usize = 12;
    // Steps after reaching the tolerance.
    pub const POLISH: usize = 3;

    pub const TOLERANCE: f64 = 1e-12;

    pub const DAMPING: f64 = 1e-10;

    pub const LEAST_DAMPING: f64 = 1e-15;
    // What the damping is multiplied by after a try that was taken, and after one that was not.
    pub const EASIER: f64 = 0.1;

    pub const HARDER: f64 = 10.0;

    pub fn start(cost: f64) -> Fit
        ensures { result ≡ started_fit cost }
    {
        Fit {
            cost,
            mu: Fit::DAMPING,
            polish: Fit::POLISH,
            iterations: 0,
            tries: 0,
            why: Reason::NothingFree,
        }
    }

    // A round begins.
    pub(crate) fn begun(self) -> Fit
        requires { self.iterations < 4096 }
        ensures { result ≡ begun_fit self }
    {
        Fit {
            iterations: self.iterations + 1,
            ..self
        }
    }

    // A try was taken.
    pub(crate) fn taken(self, cost: f64) -> Fit
        requires { self.tries < 4096 }
        ensures { result ≡ taken_fit self cost }
    {
        Fit {
            cost,
            mu: floats::max(self.mu * Fit::EASIER, Fit::LEAST_DAMPING),
            tries: self.tries + 1,
            why: Reason::Spent,
            ..self
        }
    }

    // A try was not taken, for this reason.
    pub(crate) fn harder(self, why: Reason) -> Fit
        requires { self.tries < 4096 }
        ensures { result ≡ harder_fit why self }
    {
        Fit {
            mu: self.mu * Fit::HARDER,
            tries: self.tries + 1,
            why,
            ..self
        }
    }

    // A polishing step is spent.
    pub(crate) fn polished(self) -> Fit
        requires { 0 < self.polish }
        ensures { result ≡ polished_fit self }
    {
        Fit {
            polish: self.polish - 1,
            ..self
        }
    }

    // What a call came to that ended here.
    pub(crate) fn ended(self, ending: Result<(), Unfitted>) -> Solved
        ensures { result ≡ saying ending self.iterations self.tries }
    {
        Solved {
            ending,
            iterations: self.iterations,
            tries: self.tries,
        }
    }
}
