//! Values, documents and arrays. They hold each other, so they are declared together.

ghost use Rattle.std.specs.Prelude.{◌≡◌, ◌<◌, ◌++◌, ◌∷◌, [], None, Some, length, slice_get, slice_set, MatchOption, IfOk, OnOk, OnErr};
ghost use Rattle.std.specs.Option.{option_map};
ghost use Rattle.std.specs.List.{position_from};
ghost use Rattle.std.specs.Str.{bytes_eq};
ghost use Rattle.bson_value.specs.Pairs.{find, put, with_value, without, IsPlace};
ghost use Rattle.bson_value.specs.Proper.{AreBytes, IsProper, IsDoc, IsList};
ghost use Rattle.std.specs.Prelude.{map};
ghost use Rattle.bson_value.specs.Tree.{entries, members};
ghost use Rattle.bson_value.specs.Order.{pairs_in, members_in};
ghost use Rattle.bson_value.specs.View.{tree_of, trees_in};

use crate::bytes::{Bytes, are_bytes};
use crate::name::Name;
use crate::no_memory::NoMemory;
use crate::text::Text;
use std::alloc::Global;
use std::marker::Model;
use std::{mem, vec};

/// A value of a BSON document (BSON 1.1, element).
#[cycle(value)]
#[derive(Debug, Drop)]
pub enum Value {
    /// MinKey, below every other value.
    Least,
    /// Null.
    Null,
    /// A 32-bit integer.
    Int(i32),
    /// A 64-bit integer.
    Long(i64),
    /// A text.
    Text(Text),
    /// A document.
    Doc(Doc),
    /// An array.
    List(List),
    /// Binary data: the subtype and the bytes.
    Bin(u8, Bytes),
    /// An ObjectId.
    Id([u8; 12]),
    /// A boolean.
    Flag(bool),
    /// A date: milliseconds since 1970-01-01 in UTC.
    Date(i64),
    /// A timestamp, as one number: the seconds are its upper 32 bits.
    Stamp(u64),
    /// MaxKey, above every other value.
    Greatest,
}

/// A document: pairs of a name and a value in their stored order, each name once.
#[cycle(value)]
#[derive(Debug, Drop)]
pub struct Doc {
    pairs: Vec<(Name, Value)>,
}

impl Model for Doc {
    ghost use Rattle.std.specs.Prelude.{List as Seq, ℕ};
    ghost use Rattle.std.specs.Coded.{coded_list, coded×, coded_ℕ};
    ghost use Rattle.bson_value.specs.Tree.{Tree, pairs_of, pairs_size};
    ghost use Rattle.bson_value.specs.Code.{tree_code};
    ghost use Rattle.bson_value.specs.Proper.{IsDoc};

    ghost Value = { Seq (Seq ℕ × Tree) };

    ghost coded = { coded_list (coded× (coded_list coded_ℕ) tree_code) };

    ghost use Rattle.bson_value.specs.View.{trees_in};

    ghost view = { λ d. trees_in d.pairs.items };

    ghost invariant = { λ d. IsDoc (trees_in d.pairs.items) };

    ghost size = { λ ps. pairs_size (pairs_of ps) };

    ghost use Rattle.std.proofs.Common.{arith};
    ghost use Rattle.bson_value.specs.Falls.{pairs_fall};

    ghost size_decreases = { λ a h. omega (arith, pairs_fall a.pairs.items) };
}

/// An array: a list of values.
#[cycle(value)]
#[derive(Debug, Drop)]
pub struct List {
    values: Vec<Value>,
}

impl Model for List {
    ghost use Rattle.std.specs.Prelude.{List as Seq, ℕ, map};
    ghost use Rattle.std.specs.Coded.{coded_list};
    ghost use Rattle.bson_value.specs.Tree.{Tree, trees_of, trees_size};
    ghost use Rattle.bson_value.specs.Code.{tree_code};
    ghost use Rattle.bson_value.specs.Proper.{IsList};

    ghost Value = { Seq Tree };

    ghost coded = { coded_list tree_code };

    ghost use Rattle.bson_value.specs.View.{tree_of};

    ghost view = { λ l. map tree_of l.values.items };

    ghost invariant = { λ l. IsList (map tree_of l.values.items) };

    ghost size = { λ ts. trees_size (trees_of ts) };

    ghost use Rattle.std.proofs.Common.{arith};
    ghost use Rattle.bson_value.specs.Falls.{trees_fall};

    ghost size_decreases = { λ a h. omega (arith, trees_fall a.values.items) };
}

// What holds of each array of twelve bytes. It does nothing.
fn is_id(id: &[u8; 12])
    ensures { (length id.now ≡ 12) × AreBytes id.now }
{
    are_bytes(id.as_slice());
}

impl Value {
    /// What holds of each value. It does nothing.
    pub fn known(&self)
        ensures { IsProper (tree_of self.now) }
    {
        match self {
            Value::Least | Value::Null | Value::Greatest => {}
            Value::Int(n) => {
                let _n = *n;
            }
            Value::Long(n) => {
                let _n = *n;
            }
            Value::Text(text) => {
                let _bytes = text.bytes();
            }
            Value::Doc(doc) => doc.known(),
            Value::List(list) => list.known(),
            Value::Bin(kind, bytes) => {
                let _kind = *kind;
                let _bytes = bytes.bytes();
            }
            Value::Id(id) => is_id(id),
            Value::Flag(_) => {}
            Value::Date(n) => {
                let _n = *n;
            }
            Value::Stamp(n) => {
                let _n = *n;
            }
        }
    }

    /// An equal value. It calls itself once for each level of nesting.
    #[cycle(copy)]
    pub fn copy(&self, alloc: Global) -> Result<Value, NoMemory>
        ensures { IfOk result (λ v. v ≡ self.now) }
    {
        let value = match self {
            Value::Least => Value::Least,
            Value::Null => Value::Null,
            Value::Int(n) => Value::Int(*n),
            Value::Long(n) => Value::Long(*n),
            Value::Text(text) => Value::Text(text.copy(alloc)?),
            Value::Doc(doc) => Value::Doc(doc.copy(alloc)?),
            Value::List(list) => Value::List(list.copy(alloc)?),
            Value::Bin(kind, bytes) => Value::Bin(*kind, bytes.copy(alloc)?),
            Value::Id(id) => Value::Id(*id),
            Value::Flag(flag) => Value::Flag(*flag),
            Value::Date(n) => Value::Date(*n),
            Value::Stamp(n) => Value::Stamp(*n),
            Value::Greatest => Value::Greatest,
        };
        Ok(value)
    }
}

impl Doc {
    /// A document without fields.
    pub fn new(alloc: Global) -> Doc
        ensures { result ≡ [] }
    {
        Doc {
            pairs: Vec::new(alloc),
        }
    }

    /// What holds of each document. It does nothing.
    pub fn known(&self)
        ensures { IsDoc self.now }
    {
        let _pairs = &self.pairs;
    }

    /// The number of fields.
    pub fn len(&self) -> usize
        ensures { result ≡ length self.now }
    {
        self.pairs.len()
    }

    /// The name of the field at that place.
    pub fn name(&self, i: usize) -> &[u8]
        requires { i < length self.now }
        ensures { option_map (λ p. p.0) (slice_get self.now i) ≡ Some result.now }
    {
        self.pairs[i].0.bytes()
    }

    /// The value of the field at that place.
    pub fn value(&self, i: usize) -> &Value
        requires { i < length self.now }
        ensures { option_map (λ p. p.1) (slice_get self.now i) ≡ Some (tree_of result.now) }
    {
        &self.pairs[i].1
    }

    /// The value of that name. None exactly where no field has it. Each name is looked at once at most.
    pub fn get(&self, name: &[u8]) -> Option<&Value>
        ensures { option_map (λ v. tree_of v.now) result ≡ find name.now self.now }
    {
        match place_of(self.pairs.as_slice(), name) {
            Some(at) => Some(&self.pairs[at].1),
            None => None,
        }
    }

    /// Puts the value in the place of that of its name, or at the end. A refusal changes nothing.
    pub fn put(&mut self, name: Name, value: Value) -> Result<(), NoMemory>
        ensures ok { OnOk result (self.new ≡ put name (tree_of value) self.old) }
        ensures err { OnErr result (self.new ≡ self.old) }
    {
        value.known();
        let _name = name.bytes();
        put_pair(&mut self.pairs, name, value)
    }

    /// Appends a field whose name the document doesn't have, without a search. A refusal changes nothing.
    pub fn append(&mut self, name: Name, value: Value) -> Result<(), NoMemory>
        requires { find name self.old ≡ None }
        ensures ok { OnOk result (self.new ≡ self.old ++ (name, tree_of value) ∷ []) }
        ensures err { OnErr result (self.new ≡ self.old) }
    {
        value.known();
        let _name = name.bytes();
        self.pairs.push((name, value))?;
        Ok(())
    }

    /// The place of the field of that name, counted from 0.
    pub fn place(&self, name: &[u8]) -> Option<usize>
        ensures { IsPlace name.now self.now result }
    {
        place_of(self.pairs.as_slice(), name)
    }

    /// Puts the value in the place of the `i`-th field's, and gives what was there. The name stays.
    pub fn replace(&mut self, i: usize, value: Value) -> Value
        requires { i < length self.old }
        ensures value { option_map (λ p. p.1) (slice_get self.old i) ≡ Some (tree_of result) }
        ensures rest { self.new ≡ with_value i (tree_of value) self.old }
    {
        value.known();
        replace_pair(&mut self.pairs, i, value)
    }

    /// Takes the field of that name away and gives its value; the fields after it close up. None exactly
    /// where no field has that name.
    pub fn take(&mut self, name: &[u8]) -> Option<Value>
        ensures value { option_map tree_of result ≡ find name.now self.old }
        ensures rest { self.new ≡ without name.now self.old }
    {
        take_pair(&mut self.pairs, name)
    }

    /// An equal document.
    #[cycle(copy)]
    pub fn copy(&self, alloc: Global) -> Result<Doc, NoMemory>
        ensures { IfOk result (λ d. d ≡ self.now) }
    {
        let mut pairs = Vec::new(alloc);
        for pair in &self.pairs {
            pairs.push((pair.0.copy(alloc)?, pair.1.copy(alloc)?))?;
        }
        Ok(Doc { pairs })
    }
}

impl Doc {
    /// The fields of the document, to be moved out one after another.
    pub fn into_fields(self) -> Fields
        ensures { result ≡ self }
    {
        Fields {
            pairs: self.pairs.into_iter(),
        }
    }
}

impl List {
    /// The values of the array, to be moved out one after another.
    pub fn into_items(self) -> Items
        ensures { result ≡ self }
    {
        Items {
            values: self.values.into_iter(),
        }
    }
}

/// The values of an array that are still to be given, in their order.
#[derive(Drop)]
pub struct Items {
    values: vec::IntoIter<Value>,
}

impl Model for Items {
    ghost use Rattle.std.specs.Prelude.{List as Seq, map};
    ghost use Rattle.std.specs.Vec.Iter.{into_iter_items};
    ghost use Rattle.std.specs.Coded.{coded_list};
    ghost use Rattle.bson_value.specs.Tree.{Tree};
    ghost use Rattle.bson_value.specs.Code.{tree_code};
    ghost use Rattle.bson_value.specs.View.{tree_of};

    ghost Value = { Seq Tree };

    ghost coded = { coded_list tree_code };

    ghost view = { λ i. map tree_of (into_iter_items i.values) };
}

impl Items {
    /// The next value. None exactly where all were given.
    pub fn next(&mut self) -> Option<Value>
        ensures { MatchOption result ((self.old ≡ []) × (self.new ≡ [])) (λ v. self.old ≡ tree_of v ∷ self.new) }
    {
        self.values.next()
    }
}

/// The fields of a document that are still to be given, in their stored order.
#[derive(Drop)]
pub struct Fields {
    pairs: vec::IntoIter<(Name, Value)>,
}

impl Model for Fields {
    ghost use Rattle.std.specs.Prelude.{List as Seq, ℕ};
    ghost use Rattle.std.specs.Vec.Iter.{into_iter_items};
    ghost use Rattle.std.specs.Coded.{coded_list, coded×, coded_ℕ};
    ghost use Rattle.bson_value.specs.Tree.{Tree};
    ghost use Rattle.bson_value.specs.Code.{tree_code};
    ghost use Rattle.bson_value.specs.View.{trees_in};

    ghost Value = { Seq (Seq ℕ × Tree) };

    ghost coded = { coded_list (coded× (coded_list coded_ℕ) tree_code) };

    ghost view = { λ f. trees_in (into_iter_items f.pairs) };
}

impl Fields {
    /// The next field. None exactly where all were given.
    pub fn next(&mut self) -> Option<(Name, Value)>
        ensures { MatchOption result ((self.old ≡ []) × (self.new ≡ [])) (λ p. self.old ≡ (p.0, tree_of p.1) ∷ self.new) }
    {
        self.pairs.next()
    }
}

fn position_of(pairs: &[(Name, Value)], name: &[u8]) -> Option<usize>
    ensures { result ≡ position_from (λ p. bytes_eq p.0 name.now) 0 pairs.now }
{
    pairs.iter().position(|pair| pair.0.bytes() == name)
}

// The place of the name's pair.
fn place_of(pairs: &[(Name, Value)], name: &[u8]) -> Option<usize>
    ensures { IsPlace name.now (trees_in pairs.now) result }
{
    position_of(pairs, name)
}

fn put_pair(pairs: &mut Vec<(Name, Value)>, name: Name, value: Value) -> Result<(), NoMemory>
    ensures ok { OnOk result (trees_in pairs.new.items ≡ put name (tree_of value) (trees_in pairs.old.items)) }
    ensures err { OnErr result (pairs.new.items ≡ pairs.old.items) }
{
    match place_of(pairs.as_slice(), name.bytes()) {
        Some(at) => {
            pairs[at] = (name, value);
            Ok(())
        }
        None => {
            pairs.push((name, value))?;
            Ok(())
        }
    }
}

fn replace_pair(pairs: &mut Vec<(Name, Value)>, i: usize, value: Value) -> Value
    requires { i < length pairs.old.items }
    ensures value { option_map (λ p. p.1) (slice_get (trees_in pairs.old.items) i) ≡ Some (tree_of result) }
    ensures rest { trees_in pairs.new.items ≡ with_value i (tree_of value) (trees_in pairs.old.items) }
{
    mem::replace(&mut pairs[i].1, value)
}

fn take_pair(pairs: &mut Vec<(Name, Value)>, name: &[u8]) -> Option<Value>
    ensures value { option_map tree_of result ≡ find name.now (trees_in pairs.old.items) }
    ensures rest { trees_in pairs.new.items ≡ without name.now (trees_in pairs.old.items) }
{
    match place_of(pairs.as_slice(), name) {
        Some(at) => {
            let (_name, value) = pairs.remove(at);
            Some(value)
        }
        None => None,
    }
}

impl List {
    /// An empty list.
    pub fn new(alloc: Global) -> List
        ensures { result ≡ [] }
    {
        List {
            values: Vec::new(alloc),
        }
    }

    /// What holds of each list. It does nothing.
    pub fn known(&self)
        ensures { IsList self.now }
    {
        let _values = &self.values;
    }

    /// The number of values.
    pub fn len(&self) -> usize
        ensures { result ≡ length self.now }
    {
        self.values.len()
    }

    /// The value at that place.
    pub fn value(&self, i: usize) -> &Value
        requires { i < length self.now }
        ensures { slice_get self.now i ≡ Some (tree_of result.now) }
    {
        &self.values[i]
    }

    /// Appends the value. A refusal changes nothing.
    pub fn add(&mut self, value: Value) -> Result<(), NoMemory>
        ensures ok { OnOk result (self.new ≡ self.old ++ tree_of value ∷ []) }
        ensures err { OnErr result (self.new ≡ self.old) }
    {
        value.known();
        self.values.push(value)?;
        Ok(())
    }

    /// Puts the value in the place of the `i`-th, and gives what was there.
    pub fn replace(&mut self, i: usize, value: Value) -> Value
        requires { i < length self.old }
        ensures item { slice_get self.old i ≡ Some (tree_of result) }
        ensures rest { self.new ≡ slice_set self.old i (tree_of value) }
    {
        value.known();
        replace_member(&mut self.values, i, value)
    }

    /// An equal list.
    #[cycle(copy)]
    pub fn copy(&self, alloc: Global) -> Result<List, NoMemory>
        ensures { IfOk result (λ l. l ≡ self.now) }
    {
        let mut values = Vec::new(alloc);
        for value in &self.values {
            values.push(value.copy(alloc)?)?;
        }
        Ok(List { values })
    }
}

fn replace_member(values: &mut Vec<Value>, i: usize, value: Value) -> Value
    requires { i < length values.old.items }
    ensures item { slice_get (map tree_of values.old.items) i ≡ Some (tree_of result) }
    ensures rest { map tree_of values.new.items ≡ slice_set (map tree_of values.old.items) i (tree_of value) }
{
    mem::replace(&mut values[i], value)
}

pub(crate) fn pairs_in_value(value: &Value) -> &[(Name, Value)]
    ensures { trees_in result.now ≡ entries (pairs_in (tree_of value.now)) }
{
    match value {
        Value::Doc(doc) => doc.pairs.as_slice(),
        Value::Least => &[],
        Value::Null => &[],
        Value::Int(_) => &[],
        Value::Long(_) => &[],
        Value::Text(_) => &[],
        Value::List(_) => &[],
        Value::Bin(_, _) => &[],
        Value::Id(_) => &[],
        Value::Flag(_) => &[],
        Value::Date(_) => &[],
        Value::Stamp(_) => &[],
        Value::Greatest => &[],
    }
}

pub(crate) fn members_of(value: &Value) -> &[Value]
    ensures { map tree_of result.now ≡ members (members_in (tree_of value.now)) }
{
    match value {
        Value::List(list) => list.values.as_slice(),
        Value::Least => &[],
        Value::Null => &[],
        Value::Int(_) => &[],
        Value::Long(_) => &[],
        Value::Text(_) => &[],
        Value::Doc(_) => &[],
        Value::Bin(_, _) => &[],
        Value::Id(_) => &[],
        Value::Flag(_) => &[],
        Value::Date(_) => &[],
        Value::Stamp(_) => &[],
        Value::Greatest => &[],
    }
}
