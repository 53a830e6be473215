// How many rules hold.
ghost use Rattle.std.specs.Prelude.{◌≡◌, ◌+◌, ◌<◌};
ghost use Rattle.policy_check.specs.Policy.{status_of, with_one};

use crate::judging::Finding;
use command_job::Status;

/// How many rules hold, how many fail, and of how many it isn't known.
#[derive(Clone, Copy)]
pub struct Tally {
    pub hold: usize,
    pub fail: usize,
    pub unknown: usize,
}

impl Tally {
    /// One rule more, of which this is found.
    pub fn with_one(&self, finding: &Finding) -> Tally
        requires { self.now.hold + self.now.fail + self.now.unknown < usize.MAX }
        ensures { result ≡ with_one self.now finding.now }
    {
        match finding {
            Finding::Held => Tally {
                hold: self.hold + 1,
                ..*self
            },
            Finding::Failed(_) => Tally {
                fail: self.fail + 1,
                ..*self
            },
            Finding::NotKnown(_) => Tally {
                unknown: self.unknown + 1,
                ..*self
            },
        }
    }

    /// How a command ends that judged so many rules: one that fails tells more than one that isn't known.
    pub fn status(&self) -> Status
        ensures { result ≡ status_of self.now }
    {
        if self.fail > 0 {
            Status::No
        } else if self.unknown > 0 {
            Status::Unknown
        } else {
            Status::Yes
        }
    }
}
