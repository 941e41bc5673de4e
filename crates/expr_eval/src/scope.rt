//! The names that are bound around an expression, each scope on the stack and with what is bound borrowed.

ghost use Rattle.std.specs.Prelude.{◌≡◌, Some, None, IfOk};
ghost use Rattle.std.specs.Option.{option_map};
ghost use Rattle.bson_value.specs.View.{tree_of, founds};
ghost use Rattle.expr_tree.specs.Env.{last_of, paired};
ghost use Rattle.expr_tree.specs.Eval.{through};
ghost use Rattle.expr_eval.specs.Seen.{names_in, later_of};

use crate::env::{Names, later};
use bson_value::{NoMemory, Path, Text, Value};
use doc_path::reach_value;
use std::alloc::Global;

/// Names and what they are bound to, the inner ones last.
#[derive(Clone, Copy)]
pub(crate) enum Scope<'a> {
    /// The names that are bound outside.
    Outer(&'a Names),
    /// One name more.
    One(&'a Scope<'a>, &'a [u8], Option<&'a Value>),
    /// The variables of a `$let` more.
    Many(&'a Scope<'a>, &'a [Text], &'a [Option<Value>]),
}

// What the name is bound to. None where it is missing or not bound.
fn bound_to<'a>(scope: &Scope<'a>, name: &[u8]) -> Option<&'a Value>
    ensures { option_map (λ v. tree_of v.now) result ≡ last_of name.now None (names_in scope.now) }
{
    match scope {
        Scope::Outer(names) => names.get(name),
        Scope::One(rest, bound, value) => later_one(*bound, *value, name, bound_to(*rest, name)),
        Scope::Many(rest, names, values) => later_many(
            *names,
            *values,
            name,
            bound_to(*rest, name),
        ),
    }
}

fn later_one<'a>(
    bound: &[u8],
    value: Option<&'a Value>,
    name: &[u8],
    found: Option<&'a Value>,
) -> Option<&'a Value>
    ensures { option_map (λ v. tree_of v.now) result
        ≡ later_of name.now (bound.now, option_map (λ v. tree_of v.now) value.entry) (option_map (λ v. tree_of v.now) found.entry) }
{
    if bound == name { value } else { found }
}

fn later_many<'a>(
    names: &[Text],
    values: &'a [Option<Value>],
    name: &[u8],
    found: Option<&'a Value>,
) -> Option<&'a Value>
    ensures { option_map (λ v. tree_of v.now) result
        ≡ last_of name.now (option_map (λ v. tree_of v.now) found.entry) (paired names.now (founds values.now)) }
{
    let mut found = found;
    for i in 0..names.len().min(values.len()) {
        found = later(names[i].bytes(), &values[i], name, found);
    }
    found
}

/// A copy of what the name is bound to, or of what the path reaches in that. None where it is missing.
pub(crate) fn copy_bound(
    alloc: Global,
    scope: &Scope<'_>,
    name: &Text,
    path: &Option<Path>,
) -> Result<Option<Value>, NoMemory>
    ensures { IfOk result (λ o. option_map tree_of o ≡ through path.now (last_of name.now None (names_in scope.now))) }
{
    match bound_to(scope, name.bytes()) {
        Some(value) => copy_through(alloc, value, path),
        None => Ok(None),
    }
}

fn copy_through(
    alloc: Global,
    value: &Value,
    path: &Option<Path>,
) -> Result<Option<Value>, NoMemory>
    ensures { IfOk result (λ o. option_map tree_of o ≡ through path.now (Some (tree_of value.now))) }
{
    match path {
        Some(path) => reach_value(alloc, value, path),
        None => Ok(Some(value.copy(alloc)?)),
    }
}
