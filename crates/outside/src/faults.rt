//! A count of faults, and a plan of the calls that are to fail.

ghost use Rattle.outside.specs.Below.{min, false, OnTrue, list_any};
ghost use Rattle.std.specs.Prelude.{◌≡◌, ◌==◌, ◌+◌, ◌-◌, ◌^◌, ◌≤◌};
ghost use Rattle.outside.specs.Count.{Rose};

/// One fault more; the count stays at its last value.
pub fn one_more(faults: u64) -> u64
    ensures rose { Rose faults result }
    ensures later { faults ≤ result }
{
    faults.saturating_add(1)
}

/// Which calls are to fail, by their numbers from 0 on, and how many there have been and have failed.
#[derive(Drop)]
pub struct Plan {
    pub failing: Vec<u64>,
    pub calls: u64,
    pub faults: u64,
}

impl Plan {
    pub fn new(failing: Vec<u64>) -> Self
        ensures failing { result.failing.items ≡ failing.items }
        ensures calls { result.calls ≡ 0 }
        ensures faults { result.faults ≡ 0 }
    {
        Plan {
            failing,
            calls: 0,
            faults: 0,
        }
    }

    /// Whether this call is to fail. Then it is a fault.
    pub fn fails(&mut self) -> bool
        ensures planned { result ≡ list_any (λ call. call == self.old.calls) self.old.failing.items }
        ensures rose { OnTrue result (Rose self.old.faults self.new.faults) }
        ensures kept { result ≡ false → self.new.faults ≡ self.old.faults }
        ensures later { self.old.faults ≤ self.new.faults }
        ensures calls { self.new.calls ≡ min (self.old.calls + 1) (2 ^ 64 - 1) }
        ensures same { self.new.failing.items ≡ self.old.failing.items }
    {
        let fails = self.failing.as_slice().contains(&self.calls);
        self.calls = self.calls.saturating_add(1);
        if fails {
            self.faults = one_more(self.faults);
        }
        fails
    }
}
