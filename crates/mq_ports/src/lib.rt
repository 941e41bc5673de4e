//! The outside as the program sees it: files, sinks, a store of runs and a target, each with what it tells
//! and a count of its faults. Forms in memory tell all; adapters over std tell nothing.
#![tactic(auto)]

mod disk_files;
mod disk_spill;
mod disk_target;
mod errors;
mod failures;
mod files;
mod held_files;
mod mem_files;
mod mem_sink;
mod mem_spill;
mod mem_target;
mod out_sink;
mod outside;
mod settings;
mod sink;
mod spill_store;
mod sure_files;
mod sure_sink;
mod target;

pub use disk_files::DiskFiles;
pub use disk_spill::DiskSpill;
pub use disk_target::DiskTarget;
pub use errors::{FindError, IoError, OpError};
pub use files::{Files, FoundFile};
pub use mem_files::MemFiles;
pub use mem_sink::MemSink;
pub use mem_spill::MemSpill;
pub use mem_target::MemTarget;
pub use out_sink::OutSink;
pub use outside::Outside;
pub use settings::Settings;
pub use sink::Sink;
pub use spill_store::SpillStore;
pub use sure_files::SureFiles;
pub use sure_sink::SureSink;
pub use target::Target;
