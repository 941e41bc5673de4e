ghost use Rattle.std.specs.Prelude.{◌≡◌, ◌++◌, ◌∷◌, [], Some, None, Err, OnOk, OnErr, IsSome, IsErrOf};
ghost use Rattle.mq_ports.specs.Causes.{Caused, one_more};

use crate::failures::Failures;
use crate::{IoError, Target};
use bson_value::{NoMemory, Text};
use std::alloc::Global;
use std::marker::Model;

/// A target in memory. As yet it refuses each call, so it has no collection.
#[derive(Drop)]
pub struct MemTarget {
    selected: Option<Text>,
    failures: Failures,
}

impl Model for MemTarget {
    ghost use Rattle.mq_ports.specs.Memory.{TargetInMemory};

    ghost Value = { TargetInMemory };

    ghost view = { λ t. record {
      selected = t.selected;
      failing = t.failures.at.items;
      calls = t.failures.calls;
      faults = t.failures.faults;
    } };
}

impl MemTarget {
    /// No collections.
    pub fn new(alloc: Global) -> MemTarget
        ensures { result ≡ record { selected = None; failing = []; calls = 0; faults = 0 } }
    {
        MemTarget {
            selected: None,
            failures: Failures::new(alloc),
        }
    }

    /// Lets the call of this number fail, counted from 1 over all calls that may answer that they failed.
    pub fn fail_at(&mut self, call: u64) -> Result<(), NoMemory>
        ensures ok { OnOk result (self.new ≡ record self.old { failing = self.old.failing ++ call ∷ [] }) }
        ensures err { OnErr result (self.new ≡ self.old) }
    {
        self.failures.fail_at(call)
    }
}

impl Target for MemTarget {
    ghost held = { λ _. Some [] };

    ghost staged = { λ _. Some [] };

    ghost selected = { λ t. t.selected };

    ghost faults = { λ t. t.faults };

    fn select(&mut self, _name: &[u8]) -> Result<u64, IoError>
        ensures refused { result ≡ Err IoError.Failed }
        ensures cause { Caused self.old.faults self.new.faults (IsErrOf result IoError.Failed) }
        ensures rest { self.new ≡ record self.old { selected = None; calls = one_more self.old.calls; faults = self.new.faults } }
    {
        self.selected = None;
        self.failures.count_refusal();
        Err(IoError::Failed)
    }

    fn read_at(&mut self, _at: u64, _buf: &mut [u8]) -> Result<usize, IoError>
        requires { IsSome self.old.selected }
        ensures refused { result ≡ Err IoError.Failed }
        ensures cause { Caused self.old.faults self.new.faults (IsErrOf result IoError.Failed) }
        ensures rest { self.new ≡ record self.old { calls = one_more self.old.calls; faults = self.new.faults } }
    {
        self.failures.count_refusal();
        Err(IoError::Failed)
    }

    fn stage(&mut self, _piece: &[u8]) -> Result<(), IoError>
        requires { IsSome self.old.selected }
        ensures refused { result ≡ Err IoError.Failed }
        ensures cause { Caused self.old.faults self.new.faults (IsErrOf result IoError.Failed) }
        ensures rest { self.new ≡ record self.old { calls = one_more self.old.calls; faults = self.new.faults } }
    {
        self.failures.count_refusal();
        Err(IoError::Failed)
    }

    fn commit(&mut self) -> Result<(), IoError>
        requires { IsSome self.old.selected }
        ensures refused { result ≡ Err IoError.Failed }
        ensures cause { Caused self.old.faults self.new.faults (IsErrOf result IoError.Failed) }
        ensures rest { self.new ≡ record self.old { calls = one_more self.old.calls; faults = self.new.faults } }
    {
        self.failures.count_refusal();
        Err(IoError::Failed)
    }

    fn discard(&mut self)
        ensures { self.new ≡ self.old }
    {}
}
