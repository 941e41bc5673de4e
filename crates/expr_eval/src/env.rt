//! What an expression is evaluated in.

ghost use Rattle.std.specs.Prelude.{◌≡◌, ◌++◌, ◌∷◌, [], None, length, OnOk, OnErr};
ghost use Rattle.std.specs.Option.{option_map};
ghost use Rattle.bson_value.specs.View.{tree_of};
ghost use Rattle.expr_tree.specs.Env.{last_of};
ghost use Rattle.expr_eval.specs.Seen.{later_of};

use bson_value::{Doc, NoMemory, Text, Value};
use std::alloc::Global;
use std::marker::Model;

/// What an expression is evaluated in: the document that field paths go into, and the names that are bound outside.
#[derive(Drop)]
pub struct Env<'a> {
    /// The document.
    pub root: &'a Doc,
    /// The names, of equal ones the last counting.
    pub names: Names,
}

/// Names and what they are bound to, which may be missing.
#[derive(Debug, Drop)]
pub struct Names {
    names: Vec<(Text, Option<Value>)>,
}

impl Model for Names {
    ghost use Rattle.std.specs.Prelude.{List, ℕ, Option};
    ghost use Rattle.std.specs.Coded.{coded_list, coded×, coded_ℕ, coded_option};
    ghost use Rattle.bson_value.specs.Tree.{Tree};
    ghost use Rattle.bson_value.specs.Code.{tree_code};

    ghost Value = { List (List ℕ × Option Tree) };

    ghost coded = { coded_list (coded× (coded_list coded_ℕ) (coded_option tree_code)) };

    ghost use Rattle.expr_eval.specs.Seen.{bound_in};

    ghost view = { λ n. bound_in n.names.items };
}

impl Names {
    /// No names.
    pub fn new(alloc: Global) -> Names
        ensures { result ≡ [] }
    {
        Names {
            names: Vec::new(alloc),
        }
    }

    /// The number of names.
    pub fn len(&self) -> usize
        ensures { result ≡ length self.now }
    {
        self.names.len()
    }

    /// Binds one more name. A refusal changes nothing.
    pub fn bind(&mut self, name: Text, value: Option<Value>) -> Result<(), NoMemory>
        ensures ok { OnOk result (self.new ≡ self.old ++ (name, option_map tree_of value) ∷ []) }
        ensures err { OnErr result (self.new ≡ self.old) }
    {
        self.names.push((name, value))?;
        Ok(())
    }

    /// What the last of equal names is bound to. None where it is missing, and where no name is equal.
    pub fn get(&self, name: &[u8]) -> Option<&Value>
        ensures { option_map (λ v. tree_of v.now) result ≡ last_of name.now None self.now }
    {
        let mut found = None;
        for bound in &self.names {
            found = later(bound.0.bytes(), &bound.1, name, found);
        }
        found
    }
}

// What a name is bound to, where it is the one that is looked for; else what was found before.
pub(crate) fn later<'a>(
    bound: &[u8],
    value: &'a Option<Value>,
    name: &[u8],
    found: Option<&'a Value>,
) -> Option<&'a Value>
    ensures { option_map (λ v. tree_of v.now) result
        ≡ later_of name.now (bound.now, option_map tree_of value.now) (option_map (λ v. tree_of v.now) found.entry) }
{
    if bound == name { value.as_ref() } else { found }
}
