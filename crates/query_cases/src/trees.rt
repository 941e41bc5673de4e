//! Expressions of questions: as a command has them, with names that are bound outside them, or of a form that no command
//! can have.

use crate::answers::list_of;
use bson_value::{Doc, List, Name, Op, Text, Value};
use case_notation::Item;
use expr_read::read_expr;
use expr_tree::{Bindings, Branches, Expr, Exprs, NamedExprs, Operand};
use std::alloc::Global;

// The names that may stand behind `outside`.
const OUTSIDE: [&[u8]; 5] = [b"x", b"gone", b"d", b"none", b"big"];

fn add_name(alloc: Global, names: &mut List, name: &[u8]) -> Option<()> {
    names.add(Value::Text(Text::read(alloc, name).ok()?)).ok()
}

fn names_outside(alloc: Global) -> Option<List> {
    let mut names = List::new(alloc);
    for name in OUTSIDE.iter() {
        add_name(alloc, &mut names, *name)?;
    }
    Some(names)
}

fn name_at(names: &List, i: usize) -> Option<&[u8]> {
    if i >= names.len() {
        return None;
    }
    match names.value(i) {
        Value::Text(text) => Some(text.bytes()),
        _ => None,
    }
}

// One field of a document.
fn put(alloc: Global, doc: &mut Doc, name: &[u8], value: Value) -> Option<()> {
    doc.put(Name::read(alloc, name).ok()?, value).ok()
}

// The expression that the value is where the names are bound: the body of a `$let` that binds them.
fn within(alloc: Global, names: &List, value: &Value) -> Option<Expr> {
    let mut vars = Doc::new(alloc);
    for i in 0..names.len() {
        put(alloc, &mut vars, name_at(names, i)?, Value::Null)?;
    }
    let mut operands = Doc::new(alloc);
    put(alloc, &mut operands, b"vars", Value::Doc(vars))?;
    put(alloc, &mut operands, b"in", value.copy(alloc).ok()?)?;
    let mut written = Doc::new(alloc);
    put(alloc, &mut written, b"$let", Value::Doc(operands))?;
    match read_expr(alloc, &Value::Doc(written)).ok()? {
        Expr::Let(_, body) => Some(body.into_expr()),
        _ => None,
    }
}

fn read(alloc: Global, value: &Value) -> Option<Expr> {
    read_expr(alloc, value).ok()
}

// The expressions of the array that the one item is.
fn all_in(alloc: Global, items: &[Item]) -> Option<Exprs> {
    let [item] = items else {
        return None;
    };
    match read(alloc, item.value()?)? {
        Expr::MakeList(exprs) => Some(exprs),
        _ => None,
    }
}

// A `switch` without branches, whose default is the one item, if there is one.
fn switch(alloc: Global, items: &[Item]) -> Option<Expr> {
    let branches = Branches::new(alloc);
    match items {
        [] => Some(Expr::Switch(branches, None)),
        [item] => {
            let default = Operand::new(alloc, read(alloc, item.value()?)?).ok()?;
            Some(Expr::Switch(branches, Some(default)))
        }
        _ => None,
    }
}

fn make(alloc: Global, names: &List, values: &List) -> Option<Expr> {
    let mut fields = NamedExprs::new(alloc);
    for i in 0..values.len() {
        let name = Name::read(alloc, name_at(names, i)?).ok()?;
        fields.add(name, read(alloc, values.value(i))?).ok()?;
    }
    Some(Expr::Make(fields))
}

fn bind(alloc: Global, names: &List, values: &List, body: &Value) -> Option<Expr> {
    let mut bindings = Bindings::new(alloc);
    for i in 0..values.len() {
        let name = Text::read(alloc, name_at(names, i)?).ok()?;
        bindings.add(name, read(alloc, values.value(i))?).ok()?;
    }
    let body = Operand::new(alloc, within(alloc, names, body)?).ok()?;
    Some(Expr::Let(bindings, body))
}

fn formed(alloc: Global, form: &[u8], items: &[Item]) -> Option<Expr> {
    match form {
        b"ifNull" => Some(Expr::IfNull(all_in(alloc, items)?)),
        b"subtract" => Some(Expr::Apply(Op::Subtract, all_in(alloc, items)?)),
        b"size" => Some(Expr::Apply(Op::Size, all_in(alloc, items)?)),
        b"first" => Some(Expr::Apply(Op::First, all_in(alloc, items)?)),
        b"switch" => switch(alloc, items),
        b"outside" => outside(alloc, items),
        _ => named(alloc, form, items),
    }
}

fn outside(alloc: Global, items: &[Item]) -> Option<Expr> {
    let [item] = items else {
        return None;
    };
    within(alloc, &names_outside(alloc)?, item.value()?)
}

// A form that has names.
fn named(alloc: Global, form: &[u8], items: &[Item]) -> Option<Expr> {
    let [names, values, body @ ..] = items else {
        return None;
    };
    let names = list_of(names)?;
    let values = list_of(values)?;
    match form {
        b"make" => make(alloc, names, values),
        b"let" => bind(alloc, names, values, body.first()?.value()?),
        _ => None,
    }
}

/// The expression that the items spell.
pub(crate) fn expr_in(alloc: Global, items: &[Item]) -> Option<Expr> {
    let [first, operands @ ..] = items else {
        return None;
    };
    match first.word() {
        Some(form) => formed(alloc, form, operands),
        None if operands.is_empty() => read(alloc, first.value()?),
        None => None,
    }
}
