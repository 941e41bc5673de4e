//! What the words of the command line ask for.

ghost use Rattle.std.specs.Prelude.{◌≡◌, IfErr};
ghost use Rattle.aggregate_command.specs.Request.{request_by, requested};
ghost use Rattle.aggregate_command.specs.Status.{Answers, IsOfWords};

use crate::status::Status;
use bson_value::Text;
use command_words::{Mode, WordsError, read_words};
use std::alloc::Global;

/// A run, or else a check, of the command in a file over the cluster of another.
#[derive(Debug, Drop)]
pub struct Request {
    /// The cluster file's name.
    pub cluster: Text,
    /// The command file's name.
    pub command: Text,
    /// The command is run, and not only checked.
    pub runs: bool,
}

// The request of a mode, where it is built.
fn request_of(mode: Mode) -> Result<Request, Status>
    ensures request { Answers (λ r. r) result (request_by mode) }
    ensures kind { IfErr result IsOfWords }
{
    match mode {
        Mode::Run(cluster, command, options) => {
            if options.stats {
                return Err(Status::NotBuilt);
            }
            Ok(Request {
                cluster,
                command,
                runs: true,
            })
        }
        Mode::Check(cluster, command) => Ok(Request {
            cluster,
            command,
            runs: false,
        }),
        Mode::Explain(_, _) => Err(Status::NotBuilt),
        Mode::Make(_, _, _) => Err(Status::NotBuilt),
        Mode::Work(_, _, _) => Err(Status::NotBuilt),
    }
}

/// The run or the check that the words ask for. Words without a reading are refused as of no use, and those of another
/// mode than is built as such. The options of a run have no effect yet.
#[tactic(auto, unfolding(crate::specs::Request::requested))]
pub fn read_request(alloc: Global, words: &[Text]) -> Result<Request, Status>
    ensures request { Answers (λ r. r) result (requested words.now) }
    ensures kind { IfErr result IsOfWords }
{
    match read_words(alloc, words) {
        Ok(mode) => request_of(mode),
        Err(WordsError::Usage) => Err(Status::Usage),
        Err(WordsError::Memory) => Err(Status::Memory),
    }
}
