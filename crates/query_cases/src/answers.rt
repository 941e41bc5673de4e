//! The items of answers.

use bson_value::{Doc, EvalError, List, Text, Value};
use case_notation::Item;
use std::alloc::Global;
use std::fmt::Debug;

/// The document that an item is.
pub(crate) fn doc_of(item: &Item) -> Option<&Doc> {
    match item.value()? {
        Value::Doc(doc) => Some(doc),
        _ => None,
    }
}

/// The array that an item is.
pub(crate) fn list_of(item: &Item) -> Option<&List> {
    match item.value()? {
        Value::List(list) => Some(list),
        _ => None,
    }
}

/// The bare word.
pub(crate) fn word(alloc: Global, word: &str) -> Option<Item> {
    Some(Item::Word(Text::of(alloc, word).ok()?))
}

/// `!` and the number of the code. None where memory was refused.
pub(crate) fn code(alloc: Global, error: EvalError) -> Option<Item> {
    match error {
        EvalError::Code(code) => {
            let number = code.number();
            let text = format!(in alloc; "!{number}").ok()?;
            word(alloc, text.as_str())
        }
        EvalError::Memory => None,
    }
}

/// What a tree prints. None where its copy prints something else.
pub(crate) fn printed<T: Debug>(alloc: Global, tree: &T, copy: &T) -> Option<String> {
    let text = format!(in alloc; "{tree:?}").ok()?;
    let copied = format!(in alloc; "{copy:?}").ok()?;
    if copied == text { Some(text) } else { None }
}

// What stands for no tree. No tree prints it.
const REFUSED: &str = "refused";

/// What stands for no tree.
pub(crate) fn refused(alloc: Global) -> Option<String> {
    String::from_str(alloc, REFUSED).ok()
}

/// The text of a tree that was printed, or the word for none.
pub(crate) fn tree(alloc: Global, printed: &str) -> Option<Item> {
    if printed == REFUSED {
        return word(alloc, REFUSED);
    }
    Some(Item::Value(Value::Text(Text::of(alloc, printed).ok()?)))
}

/// The one item.
pub(crate) fn one(alloc: Global, item: Item) -> Option<Vec<Item>> {
    let mut items = Vec::new(alloc);
    items.push(item).ok()?;
    Some(items)
}
