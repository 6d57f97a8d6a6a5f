ghost use Rattle.std.specs.Prelude.{◌≡◌, ◌≤◌, ◌==◌, IfOk, is_ok, not};
ghost use Rattle.std.specs.List.{list_any};
ghost use Rattle.anti_edge.specs.Plans.{fresh_plan, is_listed, after_call, after_fault};

use crate::failed::Failed;
use anti_ids::{List, NoMemory};
use std::alloc::Global;

/// How a source or a sink in memory behaves: how many bytes it moves at most in one call, and which of its calls fail.
#[derive(Drop)]
pub struct Plan {
    /// How many bytes one call moves at most.
    pub most: u32,
    /// The numbers of the calls that fail, counted from 1.
    pub fail: List<u32>,
    /// How many calls there were.
    pub calls: u64,
    /// How many of them failed.
    pub faults: u64,
}

impl Plan {
    // The plan before the first call.
    pub fn new(alloc: Global, most: u32, fail: &[u32]) -> Result<Plan, NoMemory>
        ensures { IfOk result (λ plan. plan ≡ fresh_plan most fail.now) }
    {
        let mut listed = List::new(alloc);
        for number in fail {
            listed.add(*number)?;
        }
        Ok(Plan {
            most,
            fail: listed,
            calls: 0,
            faults: 0,
        })
    }

    // Counts one more call, and fails it where its number is listed.
    pub fn begin(&mut self) -> Result<(), Failed>
        ensures fails { is_ok result ≡ not (is_listed self.old) }
        ensures after { self.new ≡ after_call self.old }
        ensures count { self.old.faults ≤ self.new.faults }
    {
        self.calls = self.calls.saturating_add(1);
        if contains(self.fail.as_slice(), self.calls) {
            self.fault();
            return Err(Failed);
        }
        Ok(())
    }

    // Counts one more failure.
    pub fn fault(&mut self)
        ensures after { self.new ≡ after_fault self.old }
        ensures count { self.old.faults ≤ self.new.faults }
    {
        self.faults = self.faults.saturating_add(1);
    }
}

// Whether the number is listed.
fn contains(listed: &[u32], number: u64) -> bool
    ensures { result ≡ list_any (λ one. one == number) listed.now }
{
    listed.iter().any(|one| u64::from(*one) == number)
}
