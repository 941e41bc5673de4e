//! The results of the stages, checked and spelled as they come.

ghost use Rattle.std.specs.Prelude.{◌≡◌, ◌<◌, ◌-◌, ◌^◌, nat_lt, OnOk};
ghost use Rattle.bson_value.specs.Depth.{depth};
ghost use Rattle.bson_value.specs.View.{tree_of};
ghost use Rattle.bson_codec.specs.Spelling.{IsShort};
ghost use Rattle.stage_tree.specs.Output.{is_too_long, is_too_deep};
ghost use Rattle.aggregate_command.specs.Gathered.{no_results, with_result, with_results, gathered};

use bson_codec::{encode, encoded_len};
use bson_value::{Bytes, Doc, Docs, EvalCode, Failure, NoMemory, Value, depth_of};
use std::alloc::Global;

/// The most bytes that a result has.
const LONGEST: u64 = 16_777_216;

/// The most levels of documents and arrays in a result, itself counted.
const DEEPEST: u32 = 100;

/// The results so far: their spellings, and whether one of them is too long or nested too deep to be written. No
/// spelling is added once one is.
#[derive(Drop)]
pub struct Results {
    /// A result has more than 16,777,216 bytes.
    too_long: bool,
    /// A result is nested deeper than 100 levels.
    too_deep: bool,
    /// The spellings of the results, one after another.
    bytes: Bytes,
}

fn is_too_long(doc: &Doc) -> bool
    ensures { result ≡ is_too_long doc.now }
{
    encoded_len(doc, LONGEST).is_none()
}

// A value is nested so deep that a document with it is nested too deep.
fn is_deep(value: &Value) -> bool
    ensures { result ≡ nat_lt 99 (depth (tree_of value.now)) }
{
    depth_of(value, DEEPEST - 1).is_none()
}

fn is_too_deep(doc: &Doc) -> bool
    ensures { result ≡ is_too_deep doc.now }
{
    for i in 0..doc.len() {
        if is_deep(doc.value(i)) {
            return true;
        }
    }
    false
}

impl Results {
    /// No result yet.
    pub fn new(alloc: Global) -> Results
        ensures { result ≡ no_results }
    {
        Results {
            too_long: false,
            too_deep: false,
            bytes: Bytes::new(alloc),
        }
    }

    // One more result.
    fn add(&mut self, doc: &Doc) -> Result<(), NoMemory>
        ensures { OnOk result (self.new ≡ with_result self.old doc.now) }
    {
        self.too_long = self.too_long || is_too_long(doc);
        self.too_deep = self.too_deep || is_too_deep(doc);
        if self.too_long || self.too_deep {
            return Ok(());
        }
        encode(doc, &mut self.bytes)
    }

    /// More results, one after another. After a refusal they are only dropped.
    pub fn add_all(&mut self, docs: &Docs) -> Result<(), NoMemory>
        ensures { OnOk result (self.new ≡ with_results self.old docs.now) }
    {
        for i in 0..docs.len() {
            self.add(docs.doc(i))?;
        }
        Ok(())
    }

    /// What the results behind so many stages come to: their spellings, or that the check, which is one stage more,
    /// fails.
    pub fn finish(self, stages: u32) -> Result<Bytes, Failure>
        requires { stages < 2 ^ 32 - 1 }
        ensures { result ≡ gathered stages self }
    {
        let stage = stages + 1;
        if self.too_long {
            let code = EvalCode::ResultTooLong;
            return Err(Failure { stage, code });
        }
        if self.too_deep {
            let code = EvalCode::ResultTooDeep;
            return Err(Failure { stage, code });
        }
        Ok(self.bytes)
    }
}
