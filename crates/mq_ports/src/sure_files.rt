ghost use Rattle.std.specs.Prelude.{◌≡◌, [], Some, OnOk, OnErr};
ghost use Rattle.mq_ports.specs.World.{with_file};

use crate::{Files, FindError, FoundFile, IoError, Outside, held_files};
use bson_value::{Bytes, NoMemory, Text};
use std::alloc::Global;
use std::marker::Model;

/// Files in memory, none of whose calls fails.
#[derive(Drop)]
pub struct SureFiles {
    files: Vec<(Text, Bytes)>,
    calls: u64,
}

impl Model for SureFiles {
    ghost use Rattle.mq_ports.specs.Memory.{SureFilesInMemory};

    ghost Value = { SureFilesInMemory };

    ghost view = { λ f. record { held = f.files.items; calls = f.calls } };
}

impl SureFiles {
    /// No files.
    pub fn new(alloc: Global) -> SureFiles
        ensures { result ≡ record { held = []; calls = 0 } }
    {
        SureFiles {
            files: Vec::new(alloc),
            calls: 0,
        }
    }

    /// Puts a file there, in place of what an equal name had. A refusal changes nothing.
    pub fn add(&mut self, name: Text, contents: Bytes) -> Result<(), NoMemory>
        ensures ok { OnOk result (self.new ≡ record self.old { held = with_file name contents self.old.held }) }
        ensures err { OnErr result (self.new ≡ self.old) }
    {
        held_files::put_in(&mut self.files, name, contents)
    }
}

impl Outside for SureFiles {
    ghost Rest = { Unit {0} };

    ghost world = { λ s. record {
      held = Some s.held;
      file_faults = 0;
      file_calls = s.calls;
      runs = Some [];
      spill_faults = 0;
      begun = 0;
      rest = tt;
      loans = [];
    } };
}

impl Files for SureFiles {
    fn find(&mut self, name: &[u8]) -> Result<FoundFile, FindError> {
        self.calls = self.calls.saturating_add(1);
        held_files::find_in(&self.files, name).ok_or(FindError::Absent)
    }

    fn read_at(&mut self, id: u64, at: u64, buf: &mut [u8]) -> Result<usize, IoError> {
        self.calls = self.calls.saturating_add(1);
        Ok(held_files::read_in(&self.files, id, at, buf))
    }
}
