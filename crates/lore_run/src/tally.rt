ghost use Rattle.std.specs.Prelude.{◌≡◌, ◌+◌, ◌<◌, ◌^◌};
ghost use Rattle.lore_run.specs.Runs.{refusals};

use crate::status::{Outcome, Status};
use lore_db::Reply;

/// How many statements were replied to, and how many of them were refused.
#[derive(Clone, Copy)]
pub(crate) struct Tally {
    pub(crate) done: u64,
    pub(crate) refused: u64,
}

impl Tally {
    /// Before the first statement.
    pub(crate) fn new() -> Tally
        ensures { result ≡ record { done = 0; refused = 0 } }
    {
        Tally {
            done: 0,
            refused: 0,
        }
    }

    /// Counts one more statement.
    pub(crate) fn count(&mut self, reply: &Reply)
        requires { (self.old.done + 1 < 2 ^ 64) × (self.old.refused + 1 < 2 ^ 64) }
        ensures done { self.new.done ≡ self.old.done + 1 }
        ensures refused { self.new.refused ≡ self.old.refused + refusals reply.now }
    {
        self.done += 1;
        if let Reply::Refused(_) = reply {
            self.refused += 1;
        }
    }

    /// The outcome of a run that ends so.
    pub(crate) fn outcome(&self, status: Status) -> Outcome
        ensures { result ≡ record {
          status = status;
          done = self.now.done;
          refused = self.now.refused;
        } }
    {
        Outcome {
            status,
            done: self.done,
            refused: self.refused,
        }
    }
}
