//! What a test looks at: where a path ends in a document. A list of ends is made only where the path leads through an
//! array.

ghost use Rattle.std.specs.Prelude.{◌≡◌, ◌<◌, ◌+◌, ◌∷◌, [], Some, length, drop, IfOk, IfSome};
ghost use Rattle.std.specs.Option.{option_map};
ghost use Rattle.bson_value.specs.View.{tree_of};
ghost use Rattle.bson_value.specs.Tree.{doc as a_doc, pairs_of};
ghost use Rattle.bson_value.specs.Paths.{ends as the_ends, candidates as the_candidates, field_ends, opened};
ghost use Rattle.query_eval.specs.Places.{ends_at, candidates_at, candidates_in};

use bson_value::{Doc, List, Name, NoMemory, Path, Value};
use doc_path::{Found, candidates};
use std::alloc::Global;

/// What a test looks at.
#[derive(Clone, Copy)]
pub(crate) enum Place<'a> {
    /// One value, or a missing one, that isn't opened.
    One(Option<&'a Value>),
    /// One array and its elements.
    Array(&'a Value, &'a List),
    /// The ends of a path through an array.
    At(&'a Doc, &'a Path),
}

/// The candidates of a place.
#[derive(Drop)]
pub(crate) enum Candidates<'a> {
    /// One value, or a missing one.
    One(Option<&'a Value>),
    /// An array, followed by its elements.
    Array(&'a Value, &'a List),
    /// The values of a list.
    Many(Found<'a>),
}

// Where the path ends, if it leads through no array; None where it does.
#[cycle(end)]
fn end_in_field<'a>(doc: &'a Doc, step: &Name, rest: &[Name]) -> Option<Option<&'a Value>>
    ensures { IfSome result (λ o. field_ends (the_ends rest.now) step.now doc.now ≡ option_map (λ v. tree_of v.now) o ∷ []) }
{
    match doc.get(step.bytes()) {
        Some(value) => end_in(value, rest),
        None => Some(None),
    }
}

#[cycle(end)]
fn end_in<'a>(value: &'a Value, steps: &[Name]) -> Option<Option<&'a Value>>
    ensures { IfSome result (λ o. the_ends steps.now (tree_of value.now) ≡ option_map (λ v. tree_of v.now) o ∷ []) }
{
    match steps {
        [] => Some(Some(value)),
        [step, rest @ ..] => match value {
            Value::Doc(doc) => end_in_field(doc, step, rest),
            Value::List(_) => None,
            _ => Some(None),
        },
    }
}

// Where the path ends in the document.
fn end_of<'a>(doc: &'a Doc, path: &Path) -> Option<Option<&'a Value>>
    ensures { IfSome result (λ o. the_ends path.now (a_doc (pairs_of doc.now)) ≡ option_map (λ v. tree_of v.now) o ∷ []) }
{
    match path.steps() {
        [] => None, // a path has a step
        [step, rest @ ..] => end_in_field(doc, step, rest),
    }
}

// What a test looks at where a path has that value as its one end.
fn place_of<'a>(value: &'a Value) -> Place<'a>
    ensures ends { ends_at result ≡ Some (tree_of value.now) ∷ [] }
    ensures candidates { candidates_at result ≡ opened (Some (tree_of value.now)) }
{
    match value {
        Value::List(list) => Place::Array(value, list),
        _ => Place::One(Some(value)),
    }
}

// The same, where the end may be missing.
fn place_at_end<'a>(end: Option<&'a Value>) -> Place<'a>
    ensures ends { ends_at result ≡ option_map (λ v. tree_of v.now) end.entry ∷ [] }
    ensures candidates { candidates_at result ≡ opened (option_map (λ v. tree_of v.now) end.entry) }
{
    match end {
        Some(value) => place_of(value),
        None => Place::One(None),
    }
}

impl<'a> Place<'a> {
    /// What a test of the path looks at in the document.
    pub(crate) fn of(doc: &'a Doc, path: &'a Path) -> Place<'a>
        ensures ends { ends_at result ≡ the_ends path.now (a_doc (pairs_of doc.now)) }
        ensures candidates { candidates_at result ≡ the_candidates path.now (a_doc (pairs_of doc.now)) }
    {
        match end_of(doc, path) {
            Some(end) => place_at_end(end),
            None => Place::At(doc, path),
        }
    }

    /// The candidates.
    pub(crate) fn candidates(self, alloc: Global) -> Result<Candidates<'a>, NoMemory>
        ensures { IfOk result (λ c. candidates_in c ≡ candidates_at self.entry) }
    {
        match self {
            Place::One(value) => Ok(Candidates::One(value)),
            Place::Array(value, list) => Ok(Candidates::Array(value, list)),
            Place::At(doc, path) => Ok(Candidates::Many(candidates(alloc, doc, path)?)),
        }
    }
}

/// The value at that place of a list, None where it is missing.
pub(crate) fn found_at<'a>(found: &Found<'a>, i: usize) -> Option<&'a Value>
    requires { i < length found.now }
    ensures { drop i found.now ≡ option_map (λ v. tree_of v.now) result ∷ drop (i + 1) found.now }
{
    found.get(i)
}

/// The element at that place.
pub(crate) fn element_at(list: &List, i: usize) -> &Value
    requires { i < length list.now }
    ensures { drop i list.now ≡ tree_of result.now ∷ drop (i + 1) list.now }
{
    list.value(i)
}
