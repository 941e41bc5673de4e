//! Why a call is refused, said of its words and its files. The function here does nothing: it is its contract.

ghost use Rattle.std.specs.Prelude.{◌≡◌, ◌↔◌, ◌⊎◌, ℕ, None, Err, List as Seq};
ghost use Rattle.chunk_map.specs.declared.errors.BadCluster.{BadCluster};
ghost use Rattle.mq_ports.specs.World.{Held, file_of};
ghost use Rattle.orphan_filter.specs.declared.errors.BadShard.{BadShard};
ghost use Rattle.orphan_filter.specs.declared.errors.SurveyError.TheVariants as survey;
ghost use Rattle.stage_tree.specs.declared.command.BadCommand.{BadCommand};
ghost use Rattle.aggregate_command.specs.declared.status.Status.{Status};
ghost use Rattle.aggregate_command.specs.declared.status.Status.TheVariants as status;
ghost use Rattle.aggregate_command.specs.Verdict.{verdict};
ghost use Rattle.call_laws.specs.Refusals.{HaveNoReading, AskForUnbuilt, HaveUnbuiltStage, AskForFile, IsLongFile, HaveBadCluster, HaveBadCommand, HaveBadFiles, IsRefusal};

use command_words::modes_are_written;
use stage_read::command_is;

/// The cause of each refusal, for all words and all held files. Words are of no use exactly where no mode is written so.
/// A call isn't built exactly where its words ask for a mode that isn't, or its files spell a command with a stage that
/// isn't. Files are read in their order, the cluster file, the command file and the shards' files, and the first of
/// them that isn't held, is too long, or doesn't spell what it must, is the refusal; of the shards' files the laws
/// of surveys in `stage_laws` say more. No other refusal comes, but that of a stage or of the check behind them.
pub fn refusals_are()
    ensures usage { (words : Seq (Seq ℕ)) (held : Held) → (verdict words held ≡ Err status.Usage) ↔ HaveNoReading words }
    ensures not_built { (words : Seq (Seq ℕ)) (held : Held) → (verdict words held ≡ Err status.NotBuilt) ↔ (AskForUnbuilt words ⊎ HaveUnbuiltStage words held) }
    ensures bad_command { (words : Seq (Seq ℕ)) (held : Held) (b : BadCommand) → (verdict words held ≡ Err (status.BadCommand b)) ↔ HaveBadCommand words held b }
    ensures bad_cluster { (words : Seq (Seq ℕ)) (held : Held) (b : BadCluster) → (verdict words held ≡ Err (status.BadCluster b)) ↔ HaveBadCluster words held b }
    ensures bad_shard { (words : Seq (Seq ℕ)) (held : Held) (b : BadShard) → (verdict words held ≡ Err (status.BadShard b)) ↔ HaveBadFiles words held (survey.Bad b) }
    ensures no_file { (words : Seq (Seq ℕ)) (held : Held) (name : Seq ℕ) → (verdict words held ≡ Err (status.NoFile name)) ↔
        ((AskForFile words held name × (file_of name held ≡ None)) ⊎ HaveBadFiles words held (survey.NoFile name)) }
    ensures too_long { (words : Seq (Seq ℕ)) (held : Held) (name : Seq ℕ) (len : ℕ) → (verdict words held ≡ Err (status.FileTooLong name len)) ↔
        ((AskForFile words held name × IsLongFile held name len) ⊎ HaveBadFiles words held (survey.FileTooLong name len)) }
    ensures others { (words : Seq (Seq ℕ)) (held : Held) (refusal : Status) → verdict words held ≡ Err refusal → IsRefusal refusal }
{
    modes_are_written();
    command_is();
}
