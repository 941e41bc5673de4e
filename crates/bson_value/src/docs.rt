//! Lists of documents.

ghost use Rattle.std.specs.Prelude.{◌≡◌, ◌<◌, ◌++◌, ◌∷◌, [], Some, length, slice_get, slice_set, MatchOption, IfOk, OnOk, OnErr};

use crate::no_memory::NoMemory;
use crate::value::Doc;
use std::alloc::Global;
use std::collections::VecDeque;
use std::marker::Model;
use std::mem;

/// A list of documents, cheap to add to at its end and to take from at its front.
#[derive(Debug, Drop)]
pub struct Docs {
    docs: VecDeque<Doc>,
}

impl Model for Docs {
    ghost use Rattle.std.specs.Prelude.{List, ℕ};
    ghost use Rattle.std.specs.Coded.{coded_list, coded×, coded_ℕ};
    ghost use Rattle.bson_value.specs.Tree.{Tree};
    ghost use Rattle.bson_value.specs.Code.{tree_code};

    ghost Value = { List (List (List ℕ × Tree)) };

    ghost coded = { coded_list (coded_list (coded× (coded_list coded_ℕ) tree_code)) };

    ghost view = { λ d. d.docs.items };
}

impl Docs {
    /// An empty list.
    pub fn new(alloc: Global) -> Docs
        ensures { result ≡ [] }
    {
        Docs {
            docs: VecDeque::new(alloc),
        }
    }

    /// The number of documents.
    pub fn len(&self) -> usize
        ensures { result ≡ length self.now }
    {
        self.docs.len()
    }

    /// The document at that place.
    pub fn doc(&self, i: usize) -> &Doc
        requires { i < length self.now }
        ensures { slice_get self.now i ≡ Some result.now }
    {
        &self.docs[i]
    }

    /// Appends the document. A refusal changes nothing.
    pub fn add(&mut self, doc: Doc) -> Result<(), NoMemory>
        ensures ok { OnOk result (self.new ≡ self.old ++ doc ∷ []) }
        ensures err { OnErr result (self.new ≡ self.old) }
    {
        self.docs.push_back(doc)?;
        Ok(())
    }

    /// The first document, which leaves the list. None exactly where the list is empty.
    pub fn take_first(&mut self) -> Option<Doc>
        ensures { MatchOption result ((self.old ≡ []) × (self.new ≡ [])) (λ d. self.old ≡ d ∷ self.new) }
    {
        self.docs.pop_front()
    }

    /// Puts the document at the place, and gives what was there.
    pub fn replace(&mut self, i: usize, doc: Doc) -> Doc
        requires { i < length self.old }
        ensures item { slice_get self.old i ≡ Some result }
        ensures rest { self.new ≡ slice_set self.old i doc }
    {
        mem::replace(&mut self.docs[i], doc)
    }

    /// An equal list.
    pub fn copy(&self, alloc: Global) -> Result<Docs, NoMemory>
        ensures { IfOk result (λ d. d ≡ self.now) }
    {
        let mut docs = VecDeque::new(alloc);
        for doc in &self.docs {
            docs.push_back(doc.copy(alloc)?)?;
        }
        Ok(Docs { docs })
    }
}
