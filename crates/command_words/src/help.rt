//! What the program answers about itself.

ghost use Rattle.std.specs.Prelude.{◌≡◌, ◌||◌, Some, IsTrue, is_some, option_map};
ghost use Rattle.command_words.specs.Own.{asks_help, asks_version, version_line};

use bson_value::Text;

const HELP: &str = "\
mongopipe runs MongoDB aggregation pipelines over sharded BSON collections.

Usage:
  mongopipe run CLUSTER COMMAND [OPTIONS]
      runs the aggregate command in the file COMMAND over the cluster that the file CLUSTER
      describes, and writes the results to standard output, one BSON document after another
  mongopipe explain CLUSTER COMMAND
      prints the plan of that run, and reads no shard file
  mongopipe check CLUSTER COMMAND
      reads and checks the files of that run, and stops before it
  mongopipe make PART NUMBER COUNT
      writes one file of a generated workload: PART is cluster, command, a, b or c
  mongopipe work NUMBER COUNT [OPTIONS]
      runs the workload in memory and sums it up; takes the options of run but --stats
  mongopipe --help
  mongopipe --version

NUMBER, which the workload is drawn from, is 0 to 18446744073709551615. COUNT, its number of
documents, is 1 to 100000. Numbers are decimal, without sign or leading zero.

Options stand anywhere among the words, each at most once, as --batch 7 or --batch=7:
  --budget N   kibibytes that a sort, a group or a window fills before it spills to disk,
               4 to 262144 (default 1024)
  --batch N    documents that a shard gives at a time, 1 to 10000 (default 101)
  --cache N    values whose matches a $lookup keeps, 1 to 10000 (default 100)
  --arrival A  which shard answers next: name, the first by name (default); turns, one after
               another; mix:N, drawn, where N is 0 to 18446744073709551615
  --stats      prints the statistics of a run on standard error

Exit status; a line on standard error says what went wrong:
  0   done
  1   a form of input that isn't built yet
  2   words that have no reading
  3   the command file holds no command that can run
  4   the cluster file describes no cluster
  5   a shard file has a bad record
  6   a file isn't there
  7   a file is longer than its limit
  8   an expression or a stage gives an evaluation error
  9   more documents than 2^40
  10  a file couldn't be read
  11  the disk space for spilled records couldn't be used
  12  the target of $merge couldn't be read or written
  13  standard output couldn't be written
  14  a file gave less than it said
  15  memory was refused

Example, in the folder sample of the repository:
  mongopipe run c.bson q.bson --budget 64 > shipped.bson
";

const VERSION: &str = "mongopipe 0.1.0\n";

fn help() -> &'static str {
    HELP
}

/// The program's own answer to the words behind its name, which goes to standard output with status 0: the help to
/// `--help` alone, the program's name and version to `--version` alone. Other words have none.
pub fn own_answer(words: &[Text]) -> Option<&'static str>
    ensures some { is_some result ≡ (asks_help words.now || asks_version words.now) }
    ensures version { IsTrue (asks_version words.now) → option_map (λ s. s.now) result ≡ Some version_line }
{
    match words {
        [word] if word.as_str() == "--help" => Some(help()),
        [word] if word.as_str() == "--version" => Some(VERSION),
        _ => None,
    }
}
