ghost use Rattle.std.specs.Prelude.{◌≡◌, ◌<◌, ◌++◌, ◌∷◌, [], Some, length, slice_get, OnOk, OnErr};
ghost use Rattle.std.specs.Option.{option_map};
ghost use Rattle.bson_value.specs.View.{tree_of};

use bson_value::{NoMemory, Value};
use std::alloc::Global;
use std::marker::Model;

/// Where a path ends, or what a test of a query looks at: values that are borrowed from the document, in order, None
/// standing for a missing one. Seen as a list of optional trees.
#[derive(Drop)]
pub struct Found<'a> {
    items: Vec<Option<&'a Value>>,
}

impl<'a> Model for Found<'a> {
    ghost use Rattle.std.specs.Prelude.{List, Option, map};
    ghost use Rattle.std.specs.Option.{option_map};
    ghost use Rattle.std.specs.Coded.{coded_list, coded_option};
    ghost use Rattle.bson_value.specs.Tree.{Tree};
    ghost use Rattle.bson_value.specs.Code.{tree_code};
    ghost use Rattle.bson_value.specs.View.{tree_of};

    ghost Value = { List (Option Tree) };

    ghost coded = { coded_list (coded_option tree_code) };

    ghost view = { λ f. map (option_map (λ v. tree_of v.now)) f.items.items };
}

impl<'a> Found<'a> {
    pub(crate) fn new(alloc: Global) -> Found<'a>
        ensures { result ≡ [] }
    {
        Found {
            items: Vec::new(alloc),
        }
    }

    /// How many values there are, missing ones among them.
    pub fn len(&self) -> usize
        ensures { result ≡ length self.now }
    {
        self.items.len()
    }

    /// The value at that place, None where it is missing.
    pub fn get(&self, i: usize) -> Option<&'a Value>
        requires { i < length self.now }
        ensures { slice_get self.now i ≡ Some (option_map (λ v. tree_of v.now) result) }
    {
        self.items[i]
    }

    pub(crate) fn add(&mut self, item: Option<&'a Value>) -> Result<(), NoMemory>
        ensures ok { OnOk result (self.new ≡ self.old ++ option_map (λ v. tree_of v.now) item.entry ∷ []) }
        ensures err { OnErr result (self.new ≡ self.old) }
    {
        self.items.push(item)?;
        Ok(())
    }
}
