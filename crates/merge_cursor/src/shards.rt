//! What the core keeps of each shard.

ghost use Rattle.std.specs.Prelude.{◌≡◌, ◌↔◌, IsTrue};

use crate::waiting::Waiting;

/// How far a shard has come.
#[derive(Clone, Copy, Debug, PartialEq, Eq)]
pub(crate) enum Progress {
    /// It was never asked.
    Fresh,
    /// It was asked, and has neither answered nor ended.
    Asked,
    /// It answered each ask with a batch, and may give more.
    Answered,
    /// It ended, and gives nothing more.
    Over,
}

impl Progress {
    ghost use Rattle.merge_cursor.specs.Shards.{is_over, is_unasked};

    pub(crate) fn is_over(self) -> bool
        ensures { result ≡ is_over self }
    {
        match self {
            Progress::Fresh => false,
            Progress::Asked => false,
            Progress::Answered => false,
            Progress::Over => true,
        }
    }

    fn is_unasked(self) -> bool
        ensures { result ≡ is_unasked self }
    {
        match self {
            Progress::Fresh => true,
            Progress::Asked => false,
            Progress::Answered => true,
            Progress::Over => false,
        }
    }
}

/// A shard: what it gave that waits to be taken, and how far it has come.
#[derive(Debug, Drop)]
pub(crate) struct Shard {
    pub waiting: Waiting,
    pub progress: Progress,
}

impl Shard {
    ghost use Rattle.merge_cursor.specs.Shards.{is_idle, is_used_up, CanAnswer, HasBegun};

    /// It may give more, it has no ask to answer, and nothing of it waits.
    pub(crate) fn is_idle(&self) -> bool
        ensures { result ≡ is_idle self.now }
    {
        self.progress.is_unasked() && self.waiting.is_empty()
    }

    /// It gives nothing more, and nothing of it waits.
    pub(crate) fn is_used_up(&self) -> bool
        ensures { result ≡ is_used_up self.now }
    {
        self.progress.is_over() && self.waiting.is_empty()
    }

    /// It has an ask to answer, and nothing of it waits.
    pub(crate) fn can_answer(&self) -> bool
        ensures { IsTrue result ↔ CanAnswer self.now }
    {
        self.progress == Progress::Asked && self.waiting.is_empty()
    }

    /// It was asked at least once, and may give more.
    pub(crate) fn has_begun(&self) -> bool
        ensures { IsTrue result ↔ HasBegun self.now }
    {
        self.progress == Progress::Asked || self.progress == Progress::Answered
    }
}
