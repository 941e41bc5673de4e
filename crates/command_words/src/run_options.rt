use crate::arrive::Arrive;
use mq_ports::Settings;

/// How a run goes.
#[derive(Clone, Copy, Debug, PartialEq, Eq)]
pub struct RunOptions {
    /// How much it may hold. The words give the budget in kibibytes, and here it is in bytes.
    pub settings: Settings,
    /// The most documents that a shard gives at a time, from 1 to 10,000.
    pub batch: u32,
    /// The order in which shards answer.
    pub arrival: Arrive,
    /// Whether the statistics of the run are printed.
    pub stats: bool,
}
