//! What a shard gave and nobody took.

ghost use Rattle.std.specs.Prelude.{◌≡◌, ◌∷◌, [], MatchOption};
ghost use Rattle.merge_cursor.specs.Shards.{StartsWith, is_empty};

use crate::item::Keyed;
use std::alloc::Global;
use std::collections::VecDeque;
use std::marker::Model;

/// The items that wait, in the order in which they came.
#[derive(Debug, Drop)]
pub(crate) struct Waiting {
    items: VecDeque<Keyed>,
}

impl Model for Waiting {
    ghost use Rattle.std.specs.Prelude.{List};
    ghost use Rattle.merge_cursor.specs.declared.item.Keyed.{Keyed};
    ghost use Rattle.merge_cursor.specs.Code.{keyed_code};
    ghost use Rattle.std.specs.Coded.{coded_list};

    ghost Value = { List Keyed };

    ghost coded = { coded_list keyed_code };

    ghost view = { λ w. w.items.items };
}

impl Waiting {
    /// Nothing waits.
    pub(crate) fn new(alloc: Global) -> Waiting
        ensures { result ≡ [] }
    {
        Waiting {
            items: VecDeque::new(alloc),
        }
    }

    /// The whole batch waits. Its block of memory is kept, and no item is copied.
    pub(crate) fn of_batch(batch: Vec<Keyed>) -> Waiting
        ensures { result ≡ batch.items }
    {
        Waiting {
            items: VecDeque::from(batch),
        }
    }

    pub(crate) fn is_empty(&self) -> bool
        ensures { result ≡ is_empty self.now }
    {
        match self.first() {
            None => true,
            Some(_) => false,
        }
    }

    /// The first item.
    pub(crate) fn first(&self) -> Option<&Keyed>
        ensures { MatchOption result (self.now ≡ []) (λ k. StartsWith k.now self.now) }
    {
        self.items.front()
    }

    /// The first item, which waits no longer.
    pub(crate) fn take_first(&mut self) -> Option<Keyed>
        ensures { MatchOption result ((self.old ≡ []) × (self.new ≡ [])) (λ k. self.old ≡ k ∷ self.new) }
    {
        self.items.pop_front()
    }
}
