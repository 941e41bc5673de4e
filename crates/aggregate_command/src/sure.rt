//! Runs over objects none of whose calls fails.

ghost use Rattle.std.specs.Prelude.{◌≡◌, ◌≢◌, ◌⊎◌, ◌++◌, IsOkAnd, Some};
ghost use Rattle.aggregate_command.specs.Line.{line_of};
ghost use Rattle.aggregate_command.specs.Sent.{TakesFront};
ghost use Rattle.aggregate_command.specs.Status.{status_of};
ghost use Rattle.aggregate_command.specs.Verdict.{verdict};

use crate::call::aggregate;
use crate::status::Status;
use bson_value::Text;
use mq_ports::{MemSpill, MemTarget, SureFiles, SureSink};
use std::alloc::Global;

/// Runs the words over files and sinks in memory, none of whose calls fails. It ends as the words and the files
/// alone say, or for want of memory. A run that fails writes nothing, one that memory is refused to at most a front of
/// its results; the notes have the line of the status, and the files stay as they are.
pub fn run_in_memory(
    alloc: Global,
    words: &[Text],
    files: &mut SureFiles,
    out: &mut SureSink,
    notes: &mut SureSink,
) -> Status
    ensures status { (result ≡ status_of (verdict words.now files.old.held)) ⊎ (result ≡ Status.Memory) }
    ensures written { result ≡ Status.Done → IsOkAnd (verdict words.now files.old.held) (λ bytes. out.new ≡ out.old ++ bytes) }
    ensures no_read_fault { result ≢ Status.ReadFault }
    ensures no_write_fault { result ≢ Status.WriteFault }
    ensures no_damage { result ≢ Status.Damage }
    ensures nothing { result ≢ Status.Done → result ≢ Status.Memory → out.new ≡ out.old }
    ensures front { TakesFront (Some out.old) (Some out.new) (verdict words.now files.old.held) }
    ensures noted { result ≢ Status.Memory → notes.new ≡ notes.old ++ line_of result }
    ensures files { files.new.held ≡ files.old.held }
{
    let mut spill = MemSpill::new(alloc);
    let mut target = MemTarget::new(alloc);
    aggregate(alloc, words, files, out, notes, &mut spill, &mut target)
}
