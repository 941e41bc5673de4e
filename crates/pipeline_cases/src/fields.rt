//! Values and words for answers. None stands for memory that was refused, and where else it says.

use bson_value::{Bytes, Doc, List, Name, Path, Text, Value};
use case_notation::Item;
use std::alloc::Global;
use std::fmt::Debug;

/// A document that grows. It is lost once a field has no value or a name that it has already.
#[derive(Drop)]
pub(crate) struct Fields {
    alloc: Global,
    doc: Option<Doc>,
}

impl Fields {
    /// The empty document.
    pub(crate) fn new(alloc: Global) -> Fields {
        let doc = Some(Doc::new(alloc));
        Fields { alloc, doc }
    }

    /// With a field more.
    pub(crate) fn add(self, name: &[u8], value: Option<Value>) -> Fields {
        let alloc = self.alloc;
        let doc = with_field(alloc, self.doc, name, value);
        Fields { alloc, doc }
    }

    /// With a text more.
    pub(crate) fn text(self, name: &[u8], text: &[u8]) -> Fields {
        let value = text_of(self.alloc, text);
        self.add(name, value)
    }

    /// With a path more.
    pub(crate) fn path(self, name: &[u8], path: &Path) -> Fields {
        let value = path_of(self.alloc, path);
        self.add(name, value)
    }

    /// With a part more, as its `Debug` shows it.
    pub(crate) fn shown<T: Debug>(self, name: &[u8], part: &T) -> Fields {
        let value = shown_of(self.alloc, part);
        self.add(name, value)
    }

    /// With a field more whose name is the path.
    pub(crate) fn at(self, path: &Path, value: Option<Value>) -> Fields {
        match dotted(self.alloc, path) {
            Some(name) => self.add(name.bytes(), value),
            None => self.add(b"", None),
        }
    }

    /// The document.
    pub(crate) fn done(self) -> Option<Value> {
        Some(Value::Doc(self.doc?))
    }
}

fn with_field(alloc: Global, doc: Option<Doc>, name: &[u8], value: Option<Value>) -> Option<Doc> {
    match (doc, value) {
        (Some(doc), Some(value)) => put(alloc, doc, name, value),
        _ => None,
    }
}

fn put(alloc: Global, doc: Doc, name: &[u8], value: Value) -> Option<Doc> {
    if doc.get(name).is_some() {
        return None;
    }
    let mut doc = doc;
    doc.put(Name::read(alloc, name).ok()?, value).ok()?;
    Some(doc)
}

/// An array that grows. It is lost once an item has no value.
#[derive(Drop)]
pub(crate) struct Items {
    list: Option<List>,
}

impl Items {
    /// The empty array.
    pub(crate) fn new(alloc: Global) -> Items {
        let list = Some(List::new(alloc));
        Items { list }
    }

    /// With an item more.
    pub(crate) fn add(self, value: Option<Value>) -> Items {
        let list = with_item(self.list, value);
        Items { list }
    }

    /// The array.
    pub(crate) fn done(self) -> Option<Value> {
        Some(Value::List(self.list?))
    }
}

fn with_item(list: Option<List>, value: Option<Value>) -> Option<List> {
    match (list, value) {
        (Some(list), Some(value)) => {
            let mut list = list;
            list.add(value).ok()?;
            Some(list)
        }
        _ => None,
    }
}

/// The document that an item is.
pub(crate) fn doc_of(item: &Item) -> Option<&Doc> {
    match item.value()? {
        Value::Doc(doc) => Some(doc),
        _ => None,
    }
}

/// The array that an item is.
pub(crate) fn list_of(item: &Item) -> Option<&List> {
    match item.value()? {
        Value::List(list) => Some(list),
        _ => None,
    }
}

/// A text.
pub(crate) fn text_of(alloc: Global, text: &[u8]) -> Option<Value> {
    Some(Value::Text(Text::read(alloc, text).ok()?))
}

/// What the `Debug` of a part shows.
pub(crate) fn shown_of<T: Debug>(alloc: Global, part: &T) -> Option<Value> {
    let text = debugged(alloc, part)?;
    text_of(alloc, text.as_bytes())
}

/// The same as a string.
pub(crate) fn debugged<T: Debug>(alloc: Global, part: &T) -> Option<String> {
    format!(in alloc; "{part:?}").ok()
}

/// A path as a text in dot notation.
pub(crate) fn path_of(alloc: Global, path: &Path) -> Option<Value> {
    let text = dotted(alloc, path)?;
    text_of(alloc, text.bytes())
}

// A path in dot notation.
fn dotted(alloc: Global, path: &Path) -> Option<Bytes> {
    let mut text = Bytes::new(alloc);
    for step in path.steps() {
        if !text.bytes().is_empty() {
            text.add(b".").ok()?;
        }
        text.add(step.bytes()).ok()?;
    }
    Some(text)
}

/// A number as an int32. None where it is none.
pub(crate) fn int(number: u32) -> Option<Value> {
    Some(Value::Int(i32::try_from(number).ok()?))
}

/// A count of documents. None where it is no long.
pub(crate) fn long(count: u64) -> Option<Value> {
    Some(Value::Long(i64::try_from(count).ok()?))
}

/// A yes or no.
pub(crate) fn flag(holds: bool) -> Option<Value> {
    Some(Value::Flag(holds))
}

/// What both are, where that is the same.
pub(crate) fn common(alloc: Global, tree: Option<Value>, copy: Option<Value>) -> Option<Item> {
    let tree = tree?;
    let copy = copy?;
    if debugged(alloc, &tree)? == debugged(alloc, &copy)? {
        Some(Item::Value(tree))
    } else {
        Item::of_word(alloc, "copied_otherwise")
    }
}
