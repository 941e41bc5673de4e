//! Lists of words and the modes that they ask for, worked out by hand from the forms that the help gives.
use bson_value::Text;
use command_words::{Arrive, MakePart, Mode, RunOptions, WordsError, own_answer, read_words};
use std::alloc::{AllocError, Global};
use std::test::Fail;

// Lines of words with a space between each two, and behind ` => ` the mode with its numbers in the order budget in
// bytes, batch, cache, arrival, or `usage`.

// The positional words, and options anywhere among them.
fn positional_lines() -> &'static str {
    "\
run c q => run c q 1048576 101 100 name
run c.bson q.bson => run c.bson q.bson 1048576 101 100 name
run run run => run run run 1048576 101 100 name
run explain check => run explain check 1048576 101 100 name
run é ü= => run é ü= 1048576 101 100 name
run => usage
run c => usage
run c q x => usage
c q => usage
Run c q => usage
runs c q => usage
c run q => usage
run c q --stats => run c q 1048576 101 100 name stats
--stats run c q => run c q 1048576 101 100 name stats
run --stats c q => run c q 1048576 101 100 name stats
run c --stats q => run c q 1048576 101 100 name stats
run --budget 8 --batch 2 --cache 3 --arrival mix:9 --stats c q => run c q 8192 2 3 mix 9 stats
--stats --arrival=turns --cache=3 --batch=2 --budget=8 run c q => run c q 8192 2 3 turns stats
--batch 5 run --cache 6 c --arrival turns q --budget 7 => run c q 7168 5 6 turns"
}

// The budget, from 4 to 262144 kibibytes.
fn budget_lines() -> &'static str {
    "\
run c q --budget 4 => run c q 4096 101 100 name
run c q --budget=4 => run c q 4096 101 100 name
--budget 4 run c q => run c q 4096 101 100 name
run --budget=4 c q => run c q 4096 101 100 name
run c --budget 5 q => run c q 5120 101 100 name
run c q --budget 1024 => run c q 1048576 101 100 name
run c q --budget 262143 => run c q 268434432 101 100 name
run c q --budget 262144 => run c q 268435456 101 100 name
run c q --budget 262145 => usage
run c q --budget 3 => usage
run c q --budget=3 => usage
run c q --budget 0 => usage
run c q --budget 18446744073709551620 => usage
run c q --budget 4294967300 => usage
run c q --budget 04 => usage
run c q --budget +4 => usage
run c q --budget -4 => usage
run c q --budget=-4 => usage
run c q --budget=+4 => usage
run c q --budget 4k => usage
run c q --budget 4.0 => usage
run c q --budget 0x4 => usage
run c q --budget 4_000 => usage
run c q --budget ４ => usage
run c q --budget= => usage
run c q --budget => usage
run c q --budget  => usage
run c q --budget 4  => usage
run c q --budget=4= => usage
run c q --budget=4 --budget=4 => usage
run c q --budget 4 --budget 5 => usage
--budget 4 run c q --budget=5 => usage
run c q --budget --stats => usage
run c q --budget --budget=4 => usage"
}

// The batch, from 1 to 10000.
fn batch_lines() -> &'static str {
    "\
run c q --batch 1 => run c q 1048576 1 100 name
run c q --batch=2 => run c q 1048576 2 100 name
run c q --batch 101 => run c q 1048576 101 100 name
run c q --batch 9999 => run c q 1048576 9999 100 name
run c q --batch 10000 => run c q 1048576 10000 100 name
run c q --batch 10001 => usage
run c q --batch 0 => usage
run c q --batch 00 => usage
run c q --batch 01 => usage
run c q --batch 4294967297 => usage
run c q --batch => usage
run c q --batch=1 --batch=1 => usage"
}

// The cache, from 1 to 10000.
fn cache_lines() -> &'static str {
    "\
run c q --cache 1 => run c q 1048576 101 1 name
run c q --cache=100 => run c q 1048576 101 100 name
run c q --cache 9999 => run c q 1048576 101 9999 name
run c q --cache 10000 => run c q 1048576 101 10000 name
run c q --cache 10001 => usage
run c q --cache 0 => usage
run c q --cache 010 => usage
run c q --cache => usage
run c q --cache 1 --cache 2 => usage"
}

// The arrival, and a number below 2^64.
fn arrival_lines() -> &'static str {
    "\
run c q --arrival name => run c q 1048576 101 100 name
run c q --arrival turns => run c q 1048576 101 100 turns
run c q --arrival=turns => run c q 1048576 101 100 turns
run c q --arrival mix:0 => run c q 1048576 101 100 mix 0
run c q --arrival=mix:7 => run c q 1048576 101 100 mix 7
run c q --arrival mix:18446744073709551614 => run c q 1048576 101 100 mix 18446744073709551614
run c q --arrival mix:18446744073709551615 => run c q 1048576 101 100 mix 18446744073709551615
run c q --arrival mix:18446744073709551616 => usage
run c q --arrival mix:99999999999999999999 => usage
run c q --arrival mix: => usage
run c q --arrival mix => usage
run c q --arrival mix:07 => usage
run c q --arrival mix:00 => usage
run c q --arrival mix:+7 => usage
run c q --arrival mix:-7 => usage
run c q --arrival mix:7x => usage
run c q --arrival mix=7 => usage
run c q --arrival=mix=7 => usage
run c q --arrival MIX:7 => usage
run c q --arrival Name => usage
run c q --arrival names => usage
run c q --arrival turn => usage
run c q --arrival 7 => usage
run c q --arrival= => usage
run c q --arrival => usage
run c q --arrival name --arrival name => usage"
}

// The flag.
fn flag_lines() -> &'static str {
    "\
run c q --stats --stats => usage
--stats run c q --stats => usage
run c q --stats=true => usage
run c q --stats= => usage
run c q --stats true => usage"
}

// Unknown options, hyphens and empty words.
fn refused_lines() -> &'static str {
    "\
run c q --stat => usage
run c q --Stats => usage
run c q --depth 3 => usage
run c q --words 3 => usage
run c q --words=3 => usage
run c q -s => usage
run c q -budget=4 => usage
run c q - => usage
- c q => usage
run - q => usage
run c q --budget - => usage
run c q -- => usage
-- run c q => usage
run -- c q => usage
run c q --budget -- => usage
run c q --=4 => usage
run c q ---stats => usage
run -c q => usage
run c -q => usage
run c --q => usage
run c  q => usage
 run c q => usage
 => usage
--help => usage
--version => usage
--help --help => usage
run c q --help => usage
-h => usage
-V => usage
help => usage
--stats => usage"
}

// The plan and the check, without options.
fn plan_lines() -> &'static str {
    "\
explain c q => explain c q
explain c => usage
explain => usage
explain c q x => usage
explain c q --stats => usage
--stats explain c q => usage
explain c q --budget 4 => usage
explain c q --batch=101 => usage
explain --cache 100 c q => usage
explain c q --arrival name => usage
check c q => check c q
check c => usage
check c q x => usage
check c q --stats => usage
--budget=4 check c q => usage
check c q --batch=1 => usage
check c --cache 1 q => usage
check c q --arrival turns => usage"
}

// A file of a workload, of 1 to 100000 documents.
fn make_lines() -> &'static str {
    "\
make cluster 0 1 => make cluster 0 1
make command 1 2 => make command 1 2
make a 18446744073709551614 99999 => make a 18446744073709551614 99999
make b 18446744073709551615 100000 => make b 18446744073709551615 100000
make c 7 1000 => make c 7 1000
make b 18446744073709551616 1 => usage
make c 7 100001 => usage
make c 7 0 => usage
make c 7 4294967297 => usage
make d 7 1 => usage
make A 7 1 => usage
make Cluster 7 1 => usage
make cluster 07 1 => usage
make cluster 00 1 => usage
make cluster 7 01 => usage
make cluster +7 1 => usage
make cluster -7 1 => usage
make cluster x 1 => usage
make 7 1 => usage
make cluster 7 => usage
make cluster 7 1 1 => usage
make  7 1 => usage
make cluster 7 1 --stats => usage
make cluster 7 1 --budget 4 => usage
make cluster 7 1 --arrival name => usage
run cluster 7 1 => usage"
}

// The workload in memory, without statistics.
fn work_lines() -> &'static str {
    "\
work 0 1 => work 0 1 1048576 101 100 name
work 1 1000 => work 1 1000 1048576 101 100 name
work 18446744073709551615 100000 => work 18446744073709551615 100000 1048576 101 100 name
work 1 1 --budget 4 --batch 1 --cache 2 --arrival mix:0 => work 1 1 4096 1 2 mix 0
--arrival turns work 1 1 => work 1 1 1048576 101 100 turns
work --batch=10000 1 --cache=10000 1 => work 1 1 1048576 10000 10000 name
work 18446744073709551616 1 => usage
work 1 0 => usage
work 1 100001 => usage
work 01 1 => usage
work 1 01 => usage
work a 1 => usage
work 1 => usage
work 1 1 1 => usage
work 1 1 --stats => usage
work 1 1 --budget 3 => usage
work 1 1 --batch 1 --batch 1 => usage"
}

fn words_in(alloc: Global, line: &str) -> Result<Vec<Text>, Fail> {
    let mut words = Vec::new(alloc);
    for word in line.split(' ') {
        words.push(Text::read(alloc, word.as_bytes())?)?;
    }
    Ok(words)
}

fn arrival_text(alloc: Global, arrival: Arrive) -> Result<String, AllocError> {
    match arrival {
        Arrive::Name => String::from_str(alloc, "name"),
        Arrive::Turns => String::from_str(alloc, "turns"),
        Arrive::Mix(number) => format!(in alloc; "mix {number}"),
    }
}

fn options_text(alloc: Global, options: &RunOptions) -> Result<String, AllocError> {
    let settings = options.settings;
    let arrival = arrival_text(alloc, options.arrival)?;
    let stats = if options.stats { " stats" } else { "" };
    if settings.documents != 1_099_511_627_776 {
        return String::from_str(alloc, "documents");
    }
    format!(in alloc;
        "{} {} {} {arrival}{stats}",
        settings.budget, options.batch, settings.cache
    )
}

fn part_name(part: MakePart) -> &'static str {
    match part {
        MakePart::Cluster => "cluster",
        MakePart::Command => "command",
        MakePart::A => "a",
        MakePart::B => "b",
        MakePart::C => "c",
    }
}

fn mode_text(alloc: Global, mode: &Mode) -> Result<String, AllocError> {
    match mode {
        Mode::Run(cluster, command, options) => {
            let options = options_text(alloc, options)?;
            format!(in alloc; "run {} {} {options}", cluster.as_str(), command.as_str())
        }
        Mode::Explain(cluster, command) => {
            format!(in alloc; "explain {} {}", cluster.as_str(), command.as_str())
        }
        Mode::Check(cluster, command) => {
            format!(in alloc; "check {} {}", cluster.as_str(), command.as_str())
        }
        Mode::Make(part, number, count) => {
            format!(in alloc; "make {} {number} {count}", part_name(*part))
        }
        Mode::Work(number, count, options) => {
            let options = options_text(alloc, options)?;
            format!(in alloc; "work {number} {count} {options}")
        }
    }
}

// The mode that a line of words asks for, or `usage`.
fn text_for(alloc: Global, line: &str) -> Result<String, Fail> {
    let words = words_in(alloc, line)?;
    match read_words(alloc, words.as_slice()) {
        Ok(mode) => Ok(mode_text(alloc, &mode)?),
        Err(WordsError::Usage) => Ok(String::from_str(alloc, "usage")?),
        Err(WordsError::Memory) => Ok(String::from_str(alloc, "memory")?),
    }
}

fn is_right(alloc: Global, line: &str) -> Result<bool, Fail> {
    let (words, wanted) = line.split_once(" => ").ok_or("no mode")?;
    let text = text_for(alloc, words)?;
    Ok(text.as_str() == wanted)
}

#[test]
fn reads_words(rt: HostRuntime) -> Result<(), Fail> {
    let tables = [
        positional_lines(),
        budget_lines(),
        batch_lines(),
        cache_lines(),
        arrival_lines(),
        flag_lines(),
        refused_lines(),
        plan_lines(),
        make_lines(),
        work_lines(),
    ];
    for lines in tables {
        for line in lines.split('\n') {
            assert!(rt; is_right(rt.alloc(), line)?, "{line}");
        }
    }
    Ok(())
}

#[test]
fn reads_no_words(rt: HostRuntime) {
    let none: [Text; 0] = [];
    assert!(rt;
        matches!(
            read_words(rt.alloc(), none.as_slice()),
            Err(WordsError::Usage)
        )
    );
}

#[test]
fn answers_itself(rt: HostRuntime) -> Result<(), Fail> {
    let alloc = rt.alloc();
    let help = own_answer(words_in(alloc, "--help")?.as_slice()).ok_or("no help")?;
    for word in [
        "run",
        "explain",
        "check",
        "make",
        "work",
        "--budget",
        "--batch",
        "--cache",
        "--arrival",
        "--stats",
    ] {
        assert!(rt; help.contains(word), "{word}");
    }
    assert!(rt; own_answer(words_in(alloc, "--version")?.as_slice()) == Some("mongopipe 0.1.0\n"));
    for line in [
        "--help --help",
        "--version x",
        "run c q --help",
        "-h",
        "help",
        "",
    ] {
        assert!(rt;
            own_answer(words_in(alloc, line)?.as_slice()).is_none(),
            "{line}"
        );
    }
    Ok(())
}
