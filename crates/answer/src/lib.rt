// What a job answers beside its lent output: how it ended, and what document 01 hands out after that ending, on 7 with document
// 02's reason. Everything else is blank: zeros, and no suspects.

#![tactic(auto)]

ghost use Rattle.std.specs.Prelude.{◌≡◌, length, min};

use sketch::Ending;

// A group that was fitted, or the one that failed: its lowest point, its freedom, its iterations and tries. What stands past the
// groups that count is the default.
#[derive(Clone, Copy, Default)]
pub struct GroupFit {
    pub lowest: usize,
    pub freedom: usize,
    pub iterations: usize,
    pub tries: usize,
    // Why it failed: document 02's code from 1 to 5, and with code 2 the column that had no pivot, counted from 1 (0 with any other
    // code). Zeros in a group that was fitted.
    pub code: usize,
    pub column: usize,
}

// A struct and no enum of its endings: `reply::write` promises the reply to every answer, one whose other fields are not blank too.
#[derive(Clone, Copy)]
pub struct Answer {
    pub ending: Ending,
    // How many of `groups` count: all of them after a fit, the failing one where a group does not converge.
    pub group_count: usize,
    // The total over the build.
    pub freedom: usize,
    // The largest residual magnitude at the points that are handed out, and no NaN; +0.0 unless there was a fit.
    pub worst: f64,
    pub groups: [GroupFit; 40],
    // Whether equation k is a suspect.
    pub suspects: [bool; 40],
}

impl Answer {
    ghost use Rattle.answer.specs.Endings.{refused_of, failed_of, fitted_of, groups_of};

    // A job that ends before its fit: only the ending.
    pub fn refused(ending: Ending) -> Self
        ensures { result ≡ refused_of ending }
    {
        Answer {
            ending,
            group_count: 0,
            freedom: 0,
            worst: 0.0,
            groups: [GroupFit::default(); 40],
            suspects: [false; 40],
        }
    }

    // A group that does not converge, with its reason, and its suspects.
    pub fn failed(g: GroupFit, suspects: [bool; 40]) -> Self
        ensures { result ≡ failed_of g suspects }
    {
        let mut groups = [GroupFit::default(); 40];
        groups[0] = g;
        Answer {
            ending: Ending::NotConverged,
            group_count: 1,
            freedom: 0,
            worst: 0.0,
            groups,
            suspects,
        }
    }

    // A fit: its groups, the total freedom and the largest residual magnitude.
    pub fn fitted(group_count: usize, groups: [GroupFit; 40], freedom: usize, worst: f64) -> Self
        ensures { result ≡ fitted_of group_count groups freedom worst }
    {
        Answer {
            ending: Ending::Fitted,
            group_count,
            freedom,
            worst,
            groups,
            suspects: [false; 40],
        }
    }

    // The groups that count.
    pub fn groups(&self) -> &[GroupFit]
        ensures items { result.now ≡ groups_of self.now }
        ensures count { length result.now ≡ min self.now.group_count 40 }
    {
        &self.groups[..self.group_count.min(40)]
    }
}
