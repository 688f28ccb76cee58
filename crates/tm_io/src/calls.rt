ghost use Rattle.std.specs.Prelude.{◌≡◌, ◌↔◌, IsTrue};
ghost use Rattle.tm_io.specs.Calls.{IsNextFailing, first_call, after_call};

use std::marker::Model;

/// The calls of a device, some of which fail. Contracts see them as the number of the next call, and
/// the numbers of those that fail.
#[derive(Drop)]
pub struct Calls {
    next: u64,
    failing: Vec<u64>,
}

impl Model for Calls {
    ghost use Rattle.tm_io.specs.Calls.{Calls as Numbers};

    ghost Value = { Numbers };

    ghost view = { λ calls. record { next = calls.next; failing = calls.failing.items } };
}

impl Calls {
    /// No call yet. Those with these numbers, counted from 1, are to fail.
    pub fn new(failing: Vec<u64>) -> Calls
        ensures { result ≡ first_call failing.items }
    {
        Calls { next: 1, failing }
    }

    /// Counts a call, and says whether it fails.
    pub fn next_fails(&mut self) -> bool
        ensures listed { IsTrue result ↔ IsNextFailing self.old }
        ensures counted { self.new ≡ after_call self.old }
    {
        let fails = self.failing.contains(&self.next);
        self.next = self.next.saturating_add(1);
        fails
    }
}
