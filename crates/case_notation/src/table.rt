use crate::case::Item;
use crate::read::read_case;
use std::alloc::Global;
use std::rt::Files;
use std::{fs, io};

/// What a table of cases is about.
pub trait Table {
    /// What comes out for the question. None where it isn't one, or memory was refused.
    fn answer(&self, alloc: Global, question: &[Item]) -> Option<Vec<Item>>;
}

/// Whether a line of a table is a case: it isn't empty, and doesn't begin with `//`.
pub fn is_case(line: &str) -> bool {
    !line.is_empty() && !line.starts_with("//")
}

// What the line's question gives where that is not its answer, as a text.
fn difference<T: Table>(alloc: Global, table: &T, line: &str) -> Option<String> {
    let Some(case) = read_case(alloc, line) else {
        return String::from_str(alloc, "is no case").ok();
    };
    let Some(found) = table.answer(alloc, case.question.as_slice()) else {
        return String::from_str(alloc, "is no question of this table").ok();
    };
    let found = format!(in alloc; "{found:?}").ok()?;
    let wanted = format!(in alloc; "{:?}", case.answer).ok()?;
    if found == wanted {
        return None;
    }
    format!(in alloc; "gives {found} and not {wanted}").ok()
}

/// Asks each case of the file of that path, and prints how many there are, and each that gives another answer. A line that
/// is empty or begins with `//` is passed over.
pub fn check_table<T: Table>(
    rt: &(impl Files + Print + AllocGlobal),
    path: &str,
    table: &T,
) -> Result<(), io::Error> {
    let text = fs::read_to_string(rt, path)?;
    let mut cases = 0usize;
    let mut different = 0usize;
    for (at, line) in text.lines().enumerate() {
        if !is_case(line) {
            continue;
        }
        cases = cases.wrapping_add(1);
        if let Some(difference) = difference(rt.alloc(), table, line) {
            different = different.wrapping_add(1);
            println!(rt; "{path} line {}: {difference}", at.wrapping_add(1))?;
        }
    }
    println!(rt; "{path}: {cases} cases, {different} differ")
}
