//! The call that the program is.

ghost use Rattle.std.specs.Prelude.{◌≡◌, ◌≢◌, ◌⊎◌, List, ℕ, Err, IfErr, IfSome, IsNone, IsOkAnd};
ghost use Rattle.std.specs.Io.KnownBytes.{Appends, Keeps};
ghost use Rattle.bson_value.specs.declared.errors.Failure.{Failure};
ghost use Rattle.chunk_map.specs.declared.errors.BadCluster.{BadCluster};
ghost use Rattle.mq_ports.specs.Causes.{Rose};
ghost use Rattle.orphan_filter.specs.declared.errors.BadShard.{BadShard};
ghost use Rattle.stage_tree.specs.declared.command.BadCommand.{BadCommand};
ghost use Rattle.aggregate_command.specs.Line.{line_of};
ghost use Rattle.aggregate_command.specs.Request.{requested};
ghost use Rattle.aggregate_command.specs.Sent.{TakesFront};
ghost use Rattle.aggregate_command.specs.Status.{MayCome, status_of};
ghost use Rattle.aggregate_command.specs.Verdict.{verdict};

use crate::notes::note;
use crate::plan::plan;
use crate::status::Status;
use crate::write::put_all;
use bson_value::Text;
use mq_ports::{Files, IoError, Sink, SpillStore, Target};
use std::alloc::Global;

/// Runs the words of a command line over the files and writes the results of the command to `out`, or checks the files.
/// Where it fails it puts a line on `notes`; a fault of `notes` doesn't change the status.
pub fn aggregate<F: Files, O: Sink, E: Sink, S: SpillStore, T: Target>(
    alloc: Global,
    words: &[Text],
    files: &mut F,
    out: &mut O,
    notes: &mut E,
    spill: &mut S,
    target: &mut T,
) -> Status
    // Where the files tell, exactly these bytes were written.
    ensures done { result ≡ Status.Done → IfSome (F.world files.old).held (λ held.
        IsOkAnd (verdict words.now held) (Appends (O.taken out.old) (O.taken out.new))) }

    // When each other answer comes.
    ensures not_built { result ≡ Status.NotBuilt → IfSome (F.world files.old).held (λ held. verdict words.now held ≡ Err Status.NotBuilt) }
    ensures usage { result ≡ Status.Usage → requested words.now ≡ Err Status.Usage }
    ensures bad_command { (b : BadCommand) → result ≡ Status.BadCommand b → IfSome (F.world files.old).held (λ held. verdict words.now held ≡ Err (Status.BadCommand b)) }
    ensures bad_cluster { (b : BadCluster) → result ≡ Status.BadCluster b → IfSome (F.world files.old).held (λ held. verdict words.now held ≡ Err (Status.BadCluster b)) }
    ensures bad_shard { (b : BadShard) → result ≡ Status.BadShard b → IfSome (F.world files.old).held (λ held. verdict words.now held ≡ Err (Status.BadShard b)) }
    ensures no_file { (name : List ℕ) → result ≡ Status.NoFile name → IfSome (F.world files.old).held (λ held. verdict words.now held ≡ Err (Status.NoFile name)) }
    ensures too_long { (name : List ℕ) (len : ℕ) → result ≡ Status.FileTooLong name len → IfSome (F.world files.old).held (λ held. verdict words.now held ≡ Err (Status.FileTooLong name len)) }
    ensures eval_error { (f : Failure) → result ≡ Status.EvalError f → IfSome (F.world files.old).held (λ held. verdict words.now held ≡ Err (Status.EvalError f)) }
    ensures read_fault { result ≡ Status.ReadFault → Rose (F.world files.old).file_faults (F.world files.new).file_faults }
    ensures write_fault { result ≡ Status.WriteFault → Rose (O.faults out.old) (O.faults out.new) }
    ensures damage { result ≡ Status.Damage → IsNone (F.world files.old).held }
    ensures may_come { MayCome result }

    // Words that ask for nothing that is built are refused before a file is asked for.
    ensures words { IfErr (requested words.now) (λ status. (result ≡ status) ⊎ (result ≡ Status.Memory)) }
    ensures unasked { IfErr (requested words.now) (λ _. F.world files.new ≡ F.world files.old) }

    // Where no fault is counted, the status is the one that words and files come to, unless memory is refused.
    ensures complete { IfSome (F.world files.old).held (λ held.
        ¬ (Rose (F.world files.old).file_faults (F.world files.new).file_faults) →
        ¬ (Rose (O.faults out.old) (O.faults out.new)) →
        (result ≡ status_of (verdict words.now held)) ⊎ (result ≡ Status.Memory)) }

    // What a call that doesn't succeed leaves.
    ensures nothing { result ≢ Status.Done → result ≢ Status.WriteFault → result ≢ Status.Memory → Keeps (O.taken out.old) (O.taken out.new) }
    ensures front { IfSome (F.world files.old).held (λ held. TakesFront (O.taken out.old) (O.taken out.new) (verdict words.now held)) }
    ensures target { T.held target.new ≡ T.held target.old }
    ensures files { (F.world files.new).held ≡ (F.world files.old).held }

    // The notes have the line of the status.
    ensures noted { ¬ (Rose (E.faults notes.old) (E.faults notes.new)) → result ≢ Status.Memory →
        Appends (E.taken notes.old) (E.taken notes.new) (line_of result) }
{
    let status = run(alloc, words, files, out);
    match note(alloc, notes, &status) {
        Err(IoError::Memory) => Status::Memory,
        _ => status,
    }
}

// The same without the notes.
#[tactic(auto, using(crate::proofs::Complete::refused_complete))]
fn run<F: Files, O: Sink>(alloc: Global, words: &[Text], files: &mut F, out: &mut O) -> Status
    ensures done { result ≡ Status.Done → IfSome (F.world files.old).held (λ held.
        IsOkAnd (verdict words.now held) (Appends (O.taken out.old) (O.taken out.new))) }
    ensures not_built { result ≡ Status.NotBuilt → IfSome (F.world files.old).held (λ held. verdict words.now held ≡ Err Status.NotBuilt) }
    ensures usage { result ≡ Status.Usage → requested words.now ≡ Err Status.Usage }
    ensures bad_command { (b : BadCommand) → result ≡ Status.BadCommand b → IfSome (F.world files.old).held (λ held. verdict words.now held ≡ Err (Status.BadCommand b)) }
    ensures bad_cluster { (b : BadCluster) → result ≡ Status.BadCluster b → IfSome (F.world files.old).held (λ held. verdict words.now held ≡ Err (Status.BadCluster b)) }
    ensures bad_shard { (b : BadShard) → result ≡ Status.BadShard b → IfSome (F.world files.old).held (λ held. verdict words.now held ≡ Err (Status.BadShard b)) }
    ensures no_file { (name : List ℕ) → result ≡ Status.NoFile name → IfSome (F.world files.old).held (λ held. verdict words.now held ≡ Err (Status.NoFile name)) }
    ensures too_long { (name : List ℕ) (len : ℕ) → result ≡ Status.FileTooLong name len → IfSome (F.world files.old).held (λ held. verdict words.now held ≡ Err (Status.FileTooLong name len)) }
    ensures eval_error { (f : Failure) → result ≡ Status.EvalError f → IfSome (F.world files.old).held (λ held. verdict words.now held ≡ Err (Status.EvalError f)) }
    ensures read_fault { result ≡ Status.ReadFault → Rose (F.world files.old).file_faults (F.world files.new).file_faults }
    ensures write_fault { result ≡ Status.WriteFault → Rose (O.faults out.old) (O.faults out.new) }
    ensures damage { result ≡ Status.Damage → IsNone (F.world files.old).held }
    ensures may_come { MayCome result }
    ensures words { IfErr (requested words.now) (λ status. (result ≡ status) ⊎ (result ≡ Status.Memory)) }
    ensures unasked { IfErr (requested words.now) (λ _. F.world files.new ≡ F.world files.old) }
    ensures complete { IfSome (F.world files.old).held (λ held.
        ¬ (Rose (F.world files.old).file_faults (F.world files.new).file_faults) →
        ¬ (Rose (O.faults out.old) (O.faults out.new)) →
        (result ≡ status_of (verdict words.now held)) ⊎ (result ≡ Status.Memory)) }
    ensures nothing { result ≢ Status.Done → result ≢ Status.WriteFault → result ≢ Status.Memory → Keeps (O.taken out.old) (O.taken out.new) }
    ensures front { IfSome (F.world files.old).held (λ held. TakesFront (O.taken out.old) (O.taken out.new) (verdict words.now held)) }
    ensures files { (F.world files.new).held ≡ (F.world files.old).held }
{
    let bytes = match plan(alloc, words, files) {
        Ok(bytes) => bytes,
        Err(status) => return status,
    };
    match put_all(out, bytes.bytes()) {
        Ok(()) => Status::Done,
        Err(IoError::Failed) => Status::WriteFault,
        Err(IoError::Memory) => Status::Memory,
    }
}
