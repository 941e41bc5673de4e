ghost use Rattle.std.specs.Prelude.{◌≡◌, None, Err, IsSome, IsErrOf};
ghost use Rattle.mq_ports.specs.Causes.{Caused};

use crate::{IoError, Target};
use bson_value::Text;
use std::marker::Model;

/// A target in files of the system. As yet it refuses each call.
#[derive(Drop)]
pub struct DiskTarget {
    selected: Option<Text>,
    faults: u64,
}

impl Model for DiskTarget {
    ghost use Rattle.mq_ports.specs.Memory.{TargetOnDisk};

    ghost Value = { TargetOnDisk };

    ghost view = { λ t. record { selected = t.selected; faults = t.faults } };
}

impl DiskTarget {
    /// A target of which no collection is selected.
    pub fn new() -> DiskTarget {
        DiskTarget {
            selected: None,
            faults: 0,
        }
    }
}

impl Target for DiskTarget {
    ghost held = { λ _. None };

    ghost staged = { λ _. None };

    ghost selected = { λ t. t.selected };

    ghost faults = { λ t. t.faults };

    fn select(&mut self, _name: &[u8]) -> Result<u64, IoError>
        ensures refused { result ≡ Err IoError.Failed }
        ensures none { self.new.selected ≡ None }
        ensures cause { Caused self.old.faults self.new.faults (IsErrOf result IoError.Failed) }
    {
        self.selected = None;
        self.faults = self.faults.saturating_add(1);
        Err(IoError::Failed)
    }

    fn read_at(&mut self, _at: u64, _buf: &mut [u8]) -> Result<usize, IoError>
        requires { IsSome self.old.selected }
        ensures refused { result ≡ Err IoError.Failed }
        ensures selected { self.new.selected ≡ self.old.selected }
        ensures cause { Caused self.old.faults self.new.faults (IsErrOf result IoError.Failed) }
    {
        self.faults = self.faults.saturating_add(1);
        Err(IoError::Failed)
    }

    fn stage(&mut self, _piece: &[u8]) -> Result<(), IoError>
        requires { IsSome self.old.selected }
        ensures refused { result ≡ Err IoError.Failed }
        ensures selected { self.new.selected ≡ self.old.selected }
        ensures cause { Caused self.old.faults self.new.faults (IsErrOf result IoError.Failed) }
    {
        self.faults = self.faults.saturating_add(1);
        Err(IoError::Failed)
    }

    fn commit(&mut self) -> Result<(), IoError>
        requires { IsSome self.old.selected }
        ensures refused { result ≡ Err IoError.Failed }
        ensures selected { self.new.selected ≡ self.old.selected }
        ensures cause { Caused self.old.faults self.new.faults (IsErrOf result IoError.Failed) }
    {
        self.faults = self.faults.saturating_add(1);
        Err(IoError::Failed)
    }

    fn discard(&mut self) {}
}
