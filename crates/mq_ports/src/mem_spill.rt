ghost use Rattle.std.specs.Prelude.{◌≡◌, ◌++◌, ◌∷◌, [], Some, Err, OnOk, OnErr, IsErrOf};
ghost use Rattle.mq_ports.specs.Causes.{Caused, one_more};

use crate::failures::Failures;
use crate::{IoError, Outside, SpillStore};
use bson_value::NoMemory;
use std::alloc::Global;
use std::marker::Model;

/// A store of runs in memory. As yet it refuses each call, so it has no run.
#[derive(Drop)]
pub struct MemSpill {
    failures: Failures,
}

impl Model for MemSpill {
    ghost use Rattle.mq_ports.specs.Memory.{SpillInMemory};

    ghost Value = { SpillInMemory };

    ghost view = { λ s. record {
      failing = s.failures.at.items;
      calls = s.failures.calls;
      faults = s.failures.faults;
    } };
}

impl MemSpill {
    /// No runs.
    pub fn new(alloc: Global) -> MemSpill
        ensures { result ≡ record { failing = []; calls = 0; faults = 0 } }
    {
        MemSpill {
            failures: Failures::new(alloc),
        }
    }

    /// Lets the call of this number fail, counted from 1 over all calls of `begin`, `append` and `read_at`.
    pub fn fail_at(&mut self, call: u64) -> Result<(), NoMemory>
        ensures ok { OnOk result (self.new ≡ record self.old { failing = self.old.failing ++ call ∷ [] }) }
        ensures err { OnErr result (self.new ≡ self.old) }
    {
        self.failures.fail_at(call)
    }
}

impl Outside for MemSpill {
    ghost Rest = { Unit {0} };

    ghost world = { λ s. record {
      held = Some [];
      file_faults = 0;
      file_calls = 0;
      runs = Some [];
      spill_faults = s.faults;
      begun = 0;
      rest = tt;
      loans = [];
    } };
}

impl SpillStore for MemSpill {
    fn begin(&mut self) -> Result<u64, IoError>
        ensures refused { result ≡ Err IoError.Failed }
        ensures cause { Caused self.old.faults self.new.faults (IsErrOf result IoError.Failed) }
        ensures rest { self.new ≡ record self.old { calls = one_more self.old.calls; faults = self.new.faults } }
    {
        self.failures.count_refusal();
        Err(IoError::Failed)
    }

    fn append(&mut self, _run: u64, _piece: &[u8]) -> Result<(), IoError>
        ensures refused { result ≡ Err IoError.Failed }
        ensures cause { Caused self.old.faults self.new.faults (IsErrOf result IoError.Failed) }
        ensures rest { self.new ≡ record self.old { calls = one_more self.old.calls; faults = self.new.faults } }
    {
        self.failures.count_refusal();
        Err(IoError::Failed)
    }

    fn read_at(&mut self, _run: u64, _at: u64, _buf: &mut [u8]) -> Result<usize, IoError>
        ensures refused { result ≡ Err IoError.Failed }
        ensures cause { Caused self.old.faults self.new.faults (IsErrOf result IoError.Failed) }
        ensures rest { self.new ≡ record self.old { calls = one_more self.old.calls; faults = self.new.faults } }
    {
        self.failures.count_refusal();
        Err(IoError::Failed)
    }

    fn end(&mut self, _run: u64)
        ensures { self.new ≡ self.old }
    {}
}
