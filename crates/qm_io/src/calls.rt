// The calls of a source or a sink in memory: which are to fail, and how many were made and have failed.
ghost use Rattle.std.specs.Prelude.{◌≡◌, ◌≤◌, ◌↔◌, Contains, IsTrue};
ghost use Rattle.qm_io.specs.Causes.{next_count};

use crate::List;

#[derive(Debug, Drop)]
pub struct Calls {
    pub failing: List<u64>,
    pub made: u64,
    pub failed: u64,
}

impl Calls {
    /// No call was made, and those with these numbers, from 1, are to fail.
    pub fn new(failing: List<u64>) -> Self
        ensures { result ≡ record { failing = failing; made = 0; failed = 0 } }
    {
        Calls {
            failing,
            made: 0,
            failed: 0,
        }
    }

    /// Makes a call, and says whether it is one that fails.
    pub fn next_fails(&mut self) -> bool
        ensures fails { IsTrue result ↔ Contains self.old.failing self.new.made }
        ensures made { self.new ≡ record self.old { made = next_count self.old.made } }
    {
        self.made = self.made.saturating_add(1);
        self.failing.as_slice().contains(&self.made)
    }

    /// Counts a call that failed.
    pub fn fail(&mut self)
        ensures later { self.old.failed ≤ self.new.failed }
        ensures failed { self.new ≡ record self.old { failed = next_count self.old.failed } }
    {
        self.failed = self.failed.saturating_add(1);
    }
}
