//! Values of expressions: `{a: 1} {$add: ["$a", 1]} -> 2`.

use crate::answers::{code, doc_of, one, word};
use crate::trees::expr_in;
use bson_value::{Doc, EvalError, Name, Text, Value};
use case_notation::{Item, Table};
use expr_eval::{Env, Names, eval};
use expr_tree::Expr;
use std::alloc::Global;

/// The table of values.
pub(crate) struct Expressions;

fn bind(alloc: Global, names: &mut Names, name: &[u8], value: Option<Value>) -> Option<()> {
    names.bind(Text::read(alloc, name).ok()?, value).ok()
}

// The names that are bound outside.
fn names_outside(alloc: Global) -> Option<Names> {
    let mut doc = Doc::new(alloc);
    doc.put(Name::read(alloc, b"a").ok()?, Value::Int(5)).ok()?;
    let mut names = Names::new(alloc);
    bind(alloc, &mut names, b"x", Some(Value::Int(1)))?;
    bind(alloc, &mut names, b"gone", Some(Value::Int(2)))?;
    bind(alloc, &mut names, b"x", Some(Value::Int(7)))?;
    bind(alloc, &mut names, b"gone", None)?;
    bind(alloc, &mut names, b"d", Some(Value::Doc(doc)))?;
    Some(names)
}

fn found(alloc: Global, value: Result<Option<Value>, EvalError>) -> Option<Item> {
    match value {
        Ok(Some(value)) => Some(Item::Value(value)),
        Ok(None) => word(alloc, "missing"),
        Err(error) => code(alloc, error),
    }
}

fn copied(alloc: Global, expr: &Expr) -> Option<Expr> {
    expr.copy(alloc).ok()
}

fn valued(alloc: Global, root: &Doc, expr: &Expr) -> Option<Item> {
    let names = names_outside(alloc)?;
    let env = Env { root, names };
    found(alloc, eval(alloc, expr, &env))
}

impl Table for Expressions {
    fn answer(&self, alloc: Global, question: &[Item]) -> Option<Vec<Item>> {
        let [doc, expr @ ..] = question else {
            return None;
        };
        let root = doc_of(doc)?;
        let expr = copied(alloc, &expr_in(alloc, expr)?)?;
        one(alloc, valued(alloc, root, &expr)?)
    }
}
