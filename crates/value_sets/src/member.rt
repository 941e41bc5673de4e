ghost use Rattle.std.specs.Prelude.{◌≡◌, IfOk};
ghost use Rattle.bson_value.specs.SetRows.{same};
ghost use Rattle.bson_value.specs.Tree.{leaf, long as a_long};
ghost use Rattle.bson_value.specs.View.{tree_of};
ghost use Rattle.value_sets.specs.Digest.{digest as the_digest};

use crate::digest::{digest, number_digest};
use bson_value::{NoMemory, Value, compare};
use std::alloc::Global;
use std::cmp::Ordering;
use std::hash::{Hash, Hasher};
use std::marker::Model;

// What a member holds: a number itself, so that a set of numbers is looked up without a look at its arrays, or any other
// value borrowed.
#[derive(Clone, Copy)]
enum Held<'a> {
    Int(i32),
    Long(i64),
    Other(&'a Value),
}

/// A value as a member of a set: two that compare equal are one.
#[derive(Drop)]
pub struct Member<'a> {
    held: Held<'a>,
}

impl<'a> Model for Member<'a> {
    ghost use Rattle.bson_value.specs.Tree.{Tree};
    ghost use Rattle.bson_value.specs.Code.{tree_code};
    ghost use Rattle.value_sets.specs.Member.{member_tree};

    ghost Value = { Tree };

    ghost coded = { tree_code };

    ghost view = { λ m. member_tree m.held };
}

impl<'a> PartialEq for Member<'a> {
    ghost use Rattle.std.specs.Cmp.{partial_equiv_from_equiv, eq_by_cmp_equiv};
    ghost use Rattle.bson_value.proofs.Total.{order_total};
    ghost use Rattle.bson_value.specs.SetRows.{same};

    ghost eq = { same };

    ghost laws = { partial_equiv_from_equiv (eq_by_cmp_equiv order_total) };

    fn eq(&self, other: &Member<'a>) -> bool {
        match self.held {
            Held::Int(number) => other.is_number(i64::from(number)),
            Held::Long(number) => other.is_number(number),
            Held::Other(value) => other.is_value(value),
        }
    }
}

impl<'a> Eq for Member<'a> {
    ghost use Rattle.std.specs.Cmp.{eq_by_cmp_equiv};
    ghost use Rattle.bson_value.proofs.Total.{order_total};

    ghost laws = { eq_by_cmp_equiv order_total };
}

impl<'a> Hash for Member<'a> {
    ghost use Rattle.std.specs.Hash as fed;
    ghost use Rattle.std.proofs.Common.{ap};
    ghost use Rattle.value_sets.specs.Digest.{digest as the_digest};
    ghost use Rattle.value_sets.specs.Alike.{same_alike};

    ghost hash_input = { λ t. fed.u64 (the_digest t) };

    ghost respects_eq = { λ x y e. ap fed.u64 (same_alike x y e) };

    fn hash<H: Hasher>(&self, state: &mut H) {
        self.digest().hash(state);
    }
}

impl<'a> Member<'a> {
    pub(crate) fn new(value: &'a Value) -> Member<'a>
        ensures { result ≡ tree_of value.now }
    {
        let held = match value {
            Value::Int(number) => Held::Int(*number),
            Value::Long(number) => Held::Long(*number),
            _ => Held::Other(value),
        };
        Member { held }
    }

    /// The same member.
    pub(crate) fn again(&self) -> Member<'a>
        ensures { result ≡ self.now }
    {
        Member { held: self.held }
    }

    // Whether the member is this number.
    fn is_number(&self, number: i64) -> bool
        ensures { result ≡ same (leaf (a_long number)) self.now }
    {
        match self.held {
            Held::Int(own) => number.cmp(&i64::from(own)) == Ordering::Equal,
            Held::Long(own) => number.cmp(&own) == Ordering::Equal,
            Held::Other(own) => compare(&Value::Long(number), own) == Ordering::Equal,
        }
    }

    // Whether the member compares equal to the value.
    fn is_value(&self, value: &Value) -> bool
        ensures { result ≡ same (tree_of value.now) self.now }
    {
        match self.held {
            Held::Int(own) => compare(value, &Value::Int(own)) == Ordering::Equal,
            Held::Long(own) => compare(value, &Value::Long(own)) == Ordering::Equal,
            Held::Other(own) => compare(value, own) == Ordering::Equal,
        }
    }

    fn digest(&self) -> u64
        ensures { result ≡ the_digest self.now }
    {
        match self.held {
            Held::Int(number) => number_digest(i64::from(number)),
            Held::Long(number) => number_digest(number),
            Held::Other(value) => digest(value),
        }
    }

    /// A value of its own.
    pub(crate) fn to_value(&self, alloc: Global) -> Result<Value, NoMemory>
        ensures { IfOk result (λ v. tree_of v ≡ self.now) }
    {
        match self.held {
            Held::Int(number) => Ok(Value::Int(number)),
            Held::Long(number) => Ok(Value::Long(number)),
            Held::Other(value) => value.copy(alloc),
        }
    }
}
