ghost use Rattle.std.specs.Prelude.{◌≡◌, [], Some, None, Err, IsErrOf};
ghost use Rattle.mq_ports.specs.Causes.{Caused};

use crate::{IoError, Outside, SpillStore};
use std::marker::Model;

/// A store of runs in files of the system. As yet it refuses each call.
#[derive(Drop)]
pub struct DiskSpill {
    faults: u64,
}

impl Model for DiskSpill {
    ghost use Rattle.std.specs.Prelude.{ℕ};

    ghost Value = { ℕ };

    ghost view = { λ s. s.faults };
}

impl DiskSpill {
    /// A store without runs.
    pub fn new() -> DiskSpill {
        DiskSpill { faults: 0 }
    }
}

impl Outside for DiskSpill {
    ghost Rest = { Unit {0} };

    ghost world = { λ s. record {
      held = Some [];
      file_faults = 0;
      file_calls = 0;
      runs = None;
      spill_faults = s;
      begun = 0;
      rest = tt;
      loans = [];
    } };
}

impl SpillStore for DiskSpill {
    fn begin(&mut self) -> Result<u64, IoError>
        ensures refused { result ≡ Err IoError.Failed }
        ensures cause { Caused self.old self.new (IsErrOf result IoError.Failed) }
    {
        self.faults = self.faults.saturating_add(1);
        Err(IoError::Failed)
    }

    fn append(&mut self, _run: u64, _piece: &[u8]) -> Result<(), IoError>
        ensures refused { result ≡ Err IoError.Failed }
        ensures cause { Caused self.old self.new (IsErrOf result IoError.Failed) }
    {
        self.faults = self.faults.saturating_add(1);
        Err(IoError::Failed)
    }

    fn read_at(&mut self, _run: u64, _at: u64, _buf: &mut [u8]) -> Result<usize, IoError>
        ensures refused { result ≡ Err IoError.Failed }
        ensures cause { Caused self.old self.new (IsErrOf result IoError.Failed) }
    {
        self.faults = self.faults.saturating_add(1);
        Err(IoError::Failed)
    }

    fn end(&mut self, _run: u64) {}
}
