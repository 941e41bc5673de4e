//! The value of an expression, form by form. The calls go round in a cycle, once for each expression within another.

ghost use Rattle.std.specs.Prelude.{◌≡◌, ◌∷◌, [], map, Some};
ghost use Rattle.std.specs.Option.{option_map};
ghost use Rattle.bson_value.specs.View.{tree_of, founds};
ghost use Rattle.bson_value.specs.Gives.{Gives};
ghost use Rattle.expr_tree.specs.Node.{branch_nodes, maybe_node};
ghost use Rattle.expr_tree.specs.View.{node_of, branches_in};
ghost use Rattle.expr_tree.specs.Env.{env_of};
ghost use Rattle.expr_tree.specs.Rows.{all, make_row, make_list_row, every_counts, some_counts, choose_row, if_null_row, switch_row, bind_row, each_row, filter_row, reduce_row, element_body, mapped, filtered, step, reduced_from, on_one, on_two, part_row, sum_row, diff_row, trunc_row};
ghost use Rattle.expr_tree.specs.Eval.{eval as value_of, evals, meanings};
ghost use Rattle.expr_eval.specs.Seen.{names_in, apply_row};

use crate::dates::{difference, part_of, sum, truncated};
use crate::env::Env;
use crate::made::{add_if, apply_all, apply_one, apply_two, made_doc, made_list};
use crate::scope::{Scope, copy_bound};
use crate::values::{counts, into_array, is_nothing, or_null, shallow};
use bson_value::{Doc, EvalCode, EvalError, List, Op, Part, Text, Unit, Value};
use doc_path::reach;
use expr_tree::{Bindings, Expr, NamedExprs, Operand};
use std::alloc::Global;

/// The value of the expression, None where it is missing. A code comes exactly where the definition gives it: operands
/// are evaluated from the left, and the first code stands. `Memory` may come in place of any answer.
pub fn eval(alloc: Global, expr: &Expr, env: &Env<'_>) -> Result<Option<Value>, EvalError>
    ensures { Gives (option_map tree_of) result (value_of (node_of expr.now) (env_of env.now.root.now env.now.names)) }
{
    eval_in(alloc, expr, env.root, &Scope::Outer(&env.names))
}

// Each form that holds more than a name, a path or a value has a function of its own, which LLVM is to leave apart: what
// holds no other expression is then answered without room for the values of one that does.
#[cycle(eval)]
fn eval_in<'a>(
    alloc: Global,
    expr: &Expr,
    root: &Doc,
    scope: &'a Scope<'a>,
) -> Result<Option<Value>, EvalError>
    ensures { Gives (option_map tree_of) result (value_of (node_of expr.now) (env_of root.now (names_in scope.now))) }
{
    match expr {
        Expr::Literal(value) => Ok(Some(value.copy(alloc)?)),
        Expr::Field(path) => Ok(reach(alloc, root, path)?),
        Expr::Root(None) => Ok(Some(Value::Doc(root.copy(alloc)?))),
        Expr::Root(Some(path)) => Ok(reach(alloc, root, path)?),
        Expr::Var(name, path) => Ok(copy_bound(alloc, scope, name, path)?),
        Expr::Remove => Ok(None),
        Expr::Make(fields) => make_form(alloc, fields, root, scope),
        Expr::MakeList(exprs) => list_form(alloc, exprs.exprs(), root, scope),
        Expr::Apply(op, exprs) => apply_form(alloc, *op, exprs.exprs(), root, scope),
        Expr::And(exprs) => Ok(Some(Value::Flag(eval_every(alloc, exprs.exprs(), root, scope)?))),
        Expr::Or(exprs) => Ok(Some(Value::Flag(eval_some(alloc, exprs.exprs(), root, scope)?))),
        Expr::Cond(test, yes, no) => {
            cond_form(alloc, test.expr(), yes.expr(), no.expr(), root, scope)
        }
        Expr::IfNull(exprs) => eval_first(alloc, exprs.exprs(), root, scope),
        Expr::Switch(branches, default) => eval_switch(
            alloc,
            branches.branches(),
            default,
            root,
            scope,
        ),
        Expr::Let(bindings, body) => eval_let(alloc, bindings, body.expr(), root, scope),
        Expr::Map(input, name, body) => {
            map_form(alloc, input.expr(), name, body.expr(), root, scope)
        }
        Expr::Filter(input, name, condition) => {
            filter_form(alloc, input.expr(), name, condition.expr(), root, scope)
        }
        Expr::Reduce(input, initial, body) => {
            reduce_form(
                alloc,
                input.expr(),
                initial.expr(),
                body.expr(),
                root,
                scope,
            )
        }
        Expr::DatePart(part, date) => part_form(alloc, *part, date.expr(), root, scope),
        Expr::DateAdd(date, unit, amount, back) => {
            sum_form(alloc, date.expr(), *unit, amount.expr(), *back, root, scope)
        }
        Expr::DateDiff(first, second, unit) => {
            diff_form(alloc, first.expr(), second.expr(), *unit, root, scope)
        }
        Expr::DateTrunc(date, unit) => trunc_form(alloc, date.expr(), *unit, root, scope),
    }
}

#[cycle(eval)]
#[inline(never)]
fn make_form<'a>(
    alloc: Global,
    fields: &'a NamedExprs,
    root: &Doc,
    scope: &'a Scope<'a>,
) -> Result<Option<Value>, EvalError>
    ensures { Gives (option_map tree_of) result (make_row fields.now.0 (meanings fields.now.1) (env_of root.now (names_in scope.now))) }
{
    let values = eval_all(alloc, fields.exprs(), root, scope)?;
    Ok(Some(Value::Doc(made_doc(alloc, fields.names(), values)?)))
}

#[cycle(eval)]
#[inline(never)]
fn list_form<'a>(
    alloc: Global,
    exprs: &'a [Expr],
    root: &Doc,
    scope: &'a Scope<'a>,
) -> Result<Option<Value>, EvalError>
    ensures { Gives (option_map tree_of) result (make_list_row (meanings (map node_of exprs.now)) (env_of root.now (names_in scope.now))) }
{
    let values = eval_all(alloc, exprs, root, scope)?;
    Ok(Some(Value::List(made_list(alloc, values)?)))
}

#[cycle(eval)]
#[inline(never)]
fn apply_form<'a>(
    alloc: Global,
    op: Op,
    exprs: &'a [Expr],
    root: &Doc,
    scope: &'a Scope<'a>,
) -> Result<Option<Value>, EvalError>
    ensures { Gives (option_map tree_of) result (apply_row op (meanings (map node_of exprs.now)) (env_of root.now (names_in scope.now))) }
{
    match exprs {
        [operand] => {
            let value = eval_in(alloc, operand, root, scope)?;
            apply_one(alloc, op, value)
        }
        [left, right] => {
            let left = eval_in(alloc, left, root, scope)?;
            let right = eval_in(alloc, right, root, scope)?;
            apply_two(alloc, op, left, right)
        }
        _ => {
            let values = eval_all(alloc, exprs, root, scope)?;
            apply_all(alloc, op, values)
        }
    }
}

#[cycle(eval)]
#[inline(never)]
fn cond_form<'a>(
    alloc: Global,
    test: &'a Expr,
    yes: &'a Expr,
    no: &'a Expr,
    root: &Doc,
    scope: &'a Scope<'a>,
) -> Result<Option<Value>, EvalError>
    ensures { Gives (option_map tree_of) result (choose_row (value_of (node_of test.now) ∷ value_of (node_of yes.now) ∷ value_of (node_of no.now) ∷ []) (env_of root.now (names_in scope.now))) }
{
    let value = eval_in(alloc, test, root, scope)?;
    if counts(value) {
        eval_in(alloc, yes, root, scope)
    } else {
        eval_in(alloc, no, root, scope)
    }
}

#[cycle(eval)]
#[inline(never)]
fn map_form<'a>(
    alloc: Global,
    input: &'a Expr,
    name: &'a Text,
    body: &'a Expr,
    root: &Doc,
    scope: &'a Scope<'a>,
) -> Result<Option<Value>, EvalError>
    ensures { Gives (option_map tree_of) result (each_row name.now (value_of (node_of input.now) ∷ value_of (node_of body.now) ∷ []) (env_of root.now (names_in scope.now))) }
{
    let value = eval_in(alloc, input, root, scope)?;
    match into_array(value) {
        Ok(None) => Ok(Some(Value::Null)),
        Ok(Some(list)) => Ok(Some(Value::List(eval_each(alloc, list, name, body, root, scope)?))),
        Err(code) => Err(EvalError::Code(code)),
    }
}

#[cycle(eval)]
#[inline(never)]
fn filter_form<'a>(
    alloc: Global,
    input: &'a Expr,
    name: &'a Text,
    condition: &'a Expr,
    root: &Doc,
    scope: &'a Scope<'a>,
) -> Result<Option<Value>, EvalError>
    ensures { Gives (option_map tree_of) result (filter_row name.now (value_of (node_of input.now) ∷ value_of (node_of condition.now) ∷ []) (env_of root.now (names_in scope.now))) }
{
    let value = eval_in(alloc, input, root, scope)?;
    match into_array(value) {
        Ok(None) => Ok(Some(Value::Null)),
        Ok(Some(list)) => Ok(Some(Value::List(eval_filter(
            alloc, list, name, condition, root, scope,
        )?))),
        Err(code) => Err(EvalError::Code(code)),
    }
}

#[cycle(eval)]
#[inline(never)]
fn reduce_form<'a>(
    alloc: Global,
    input: &'a Expr,
    initial: &'a Expr,
    body: &'a Expr,
    root: &Doc,
    scope: &'a Scope<'a>,
) -> Result<Option<Value>, EvalError>
    ensures { Gives (option_map tree_of) result (reduce_row (value_of (node_of input.now) ∷ value_of (node_of initial.now) ∷ value_of (node_of body.now) ∷ []) (env_of root.now (names_in scope.now))) }
{
    let value = eval_in(alloc, input, root, scope)?;
    let initial = eval_in(alloc, initial, root, scope)?;
    match into_array(value) {
        Ok(None) => Ok(Some(Value::Null)),
        Ok(Some(list)) => Ok(Some(eval_reduce(alloc, list, initial, body, root, scope)?)),
        Err(code) => Err(EvalError::Code(code)),
    }
}

#[cycle(eval)]
#[inline(never)]
fn part_form<'a>(
    alloc: Global,
    part: Part,
    date: &'a Expr,
    root: &Doc,
    scope: &'a Scope<'a>,
) -> Result<Option<Value>, EvalError>
    ensures { Gives (option_map tree_of) result (on_one (part_row part) (value_of (node_of date.now) ∷ []) (env_of root.now (names_in scope.now))) }
{
    let date = eval_in(alloc, date, root, scope)?;
    part_of(part, date)
}

#[cycle(eval)]
#[inline(never)]
fn sum_form<'a>(
    alloc: Global,
    date: &'a Expr,
    unit: Unit,
    amount: &'a Expr,
    back: bool,
    root: &Doc,
    scope: &'a Scope<'a>,
) -> Result<Option<Value>, EvalError>
    ensures { Gives (option_map tree_of) result (on_two (sum_row unit back) (value_of (node_of date.now) ∷ value_of (node_of amount.now) ∷ []) (env_of root.now (names_in scope.now))) }
{
    let date = eval_in(alloc, date, root, scope)?;
    let amount = eval_in(alloc, amount, root, scope)?;
    sum(date, unit, amount, back)
}

#[cycle(eval)]
#[inline(never)]
fn diff_form<'a>(
    alloc: Global,
    first: &'a Expr,
    second: &'a Expr,
    unit: Unit,
    root: &Doc,
    scope: &'a Scope<'a>,
) -> Result<Option<Value>, EvalError>
    ensures { Gives (option_map tree_of) result (on_two (diff_row unit) (value_of (node_of first.now) ∷ value_of (node_of second.now) ∷ []) (env_of root.now (names_in scope.now))) }
{
    let first = eval_in(alloc, first, root, scope)?;
    let second = eval_in(alloc, second, root, scope)?;
    difference(first, second, unit)
}

#[cycle(eval)]
#[inline(never)]
fn trunc_form<'a>(
    alloc: Global,
    date: &'a Expr,
    unit: Unit,
    root: &Doc,
    scope: &'a Scope<'a>,
) -> Result<Option<Value>, EvalError>
    ensures { Gives (option_map tree_of) result (on_one (trunc_row unit) (value_of (node_of date.now) ∷ []) (env_of root.now (names_in scope.now))) }
{
    let date = eval_in(alloc, date, root, scope)?;
    truncated(date, unit)
}

#[cycle(eval)]
fn eval_all<'a>(
    alloc: Global,
    exprs: &'a [Expr],
    root: &Doc,
    scope: &'a Scope<'a>,
) -> Result<Vec<Option<Value>>, EvalError>
    ensures { Gives (λ v. founds v.items) result (all (meanings (map node_of exprs.now)) (env_of root.now (names_in scope.now))) }
{
    let mut values = Vec::with_capacity(alloc, exprs.len())?;
    for expr in exprs {
        let value = eval_in(alloc, expr, root, scope)?;
        values.push(value)?;
    }
    Ok(values)
}

#[cycle(eval)]
#[inline(never)]
fn eval_every<'a>(
    alloc: Global,
    exprs: &'a [Expr],
    root: &Doc,
    scope: &'a Scope<'a>,
) -> Result<bool, EvalError>
    ensures { Gives (λ b. b) result (every_counts (meanings (map node_of exprs.now)) (env_of root.now (names_in scope.now))) }
{
    for expr in exprs {
        let value = eval_in(alloc, expr, root, scope)?;
        if !counts(value) {
            return Ok(false);
        }
    }
    Ok(true)
}

#[cycle(eval)]
#[inline(never)]
fn eval_some<'a>(
    alloc: Global,
    exprs: &'a [Expr],
    root: &Doc,
    scope: &'a Scope<'a>,
) -> Result<bool, EvalError>
    ensures { Gives (λ b. b) result (some_counts (meanings (map node_of exprs.now)) (env_of root.now (names_in scope.now))) }
{
    for expr in exprs {
        let value = eval_in(alloc, expr, root, scope)?;
        if counts(value) {
            return Ok(true);
        }
    }
    Ok(false)
}

#[cycle(eval)]
#[inline(never)]
fn eval_first<'a>(
    alloc: Global,
    exprs: &'a [Expr],
    root: &Doc,
    scope: &'a Scope<'a>,
) -> Result<Option<Value>, EvalError>
    ensures { Gives (option_map tree_of) result (if_null_row (meanings (map node_of exprs.now)) (env_of root.now (names_in scope.now))) }
{
    let mut found = Some(Value::Null);
    for expr in exprs {
        found = eval_in(alloc, expr, root, scope)?;
        if !is_nothing(&found) {
            return Ok(found);
        }
    }
    Ok(found)
}

#[cycle(eval)]
#[inline(never)]
fn eval_switch<'a>(
    alloc: Global,
    branches: &'a [(Expr, Expr)],
    default: &'a Option<Operand>,
    root: &Doc,
    scope: &'a Scope<'a>,
) -> Result<Option<Value>, EvalError>
    ensures { Gives (option_map tree_of) result
        (switch_row (evals (branch_nodes (branches_in branches.now) (maybe_node default.now))) (env_of root.now (names_in scope.now))) }
{
    for branch in branches {
        let case = eval_in(alloc, &branch.0, root, scope)?;
        if counts(case) {
            return eval_in(alloc, &branch.1, root, scope);
        }
    }
    match default {
        Some(default) => eval_in(alloc, default.expr(), root, scope),
        None => Err(EvalError::Code(EvalCode::NoBranch)),
    }
}

#[cycle(eval)]
#[inline(never)]
fn eval_let<'a>(
    alloc: Global,
    bindings: &'a Bindings,
    body: &'a Expr,
    root: &Doc,
    scope: &'a Scope<'a>,
) -> Result<Option<Value>, EvalError>
    ensures { Gives (option_map tree_of) result
        (bind_row bindings.now.0 (value_of (node_of body.now) ∷ meanings bindings.now.1) (env_of root.now (names_in scope.now))) }
{
    let values = eval_all(alloc, bindings.exprs(), root, scope)?;
    let inner = Scope::Many(&*scope, bindings.names(), values.as_slice());
    eval_in(alloc, &*body, root, &inner)
}

#[cycle(eval)]
fn eval_each<'a>(
    alloc: Global,
    list: List,
    name: &'a Text,
    body: &'a Expr,
    root: &Doc,
    scope: &'a Scope<'a>,
) -> Result<List, EvalError>
    ensures { Gives (λ l. l) result (mapped (element_body (value_of (node_of body.now)) name.now (env_of root.now (names_in scope.now))) [] list) }
{
    let mut values = List::new(alloc);
    for i in 0..list.len() {
        let inner = Scope::One(&*scope, name.bytes(), Some(list.value(i)));
        let value = eval_in(alloc, &*body, root, &inner)?;
        values.add(or_null(value))?;
    }
    Ok(values)
}

#[cycle(eval)]
fn eval_filter<'a>(
    alloc: Global,
    list: List,
    name: &'a Text,
    condition: &'a Expr,
    root: &Doc,
    scope: &'a Scope<'a>,
) -> Result<List, EvalError>
    ensures { Gives (λ l. l) result (filtered (element_body (value_of (node_of condition.now)) name.now (env_of root.now (names_in scope.now))) [] list) }
{
    let mut kept = List::new(alloc);
    let mut items = list.into_items();
    while let Some(item) = items.next() {
        let keep = eval_element(alloc, &item, &*name, &*condition, root, &*scope)?;
        add_if(&mut kept, counts(keep), item)?;
    }
    Ok(kept)
}

// The body, with the name bound to the element.
#[cycle(eval)]
fn eval_element<'a>(
    alloc: Global,
    item: &'a Value,
    name: &'a Text,
    body: &'a Expr,
    root: &Doc,
    scope: &'a Scope<'a>,
) -> Result<Option<Value>, EvalError>
    ensures { Gives (option_map tree_of) result (element_body (value_of (node_of body.now)) name.now (env_of root.now (names_in scope.now)) (tree_of item.now)) }
{
    let inner = Scope::One(&*scope, name.bytes(), Some(item));
    eval_in(alloc, &*body, root, &inner)
}

#[cycle(eval)]
fn eval_reduce<'a>(
    alloc: Global,
    list: List,
    initial: Option<Value>,
    body: &'a Expr,
    root: &Doc,
    scope: &'a Scope<'a>,
) -> Result<Value, EvalError>
    ensures { Gives (λ v. Some (tree_of v)) result (reduced_from (step (value_of (node_of body.now)) (env_of root.now (names_in scope.now))) (option_map tree_of initial) list) }
{
    let mut value = shallow(initial)?;
    for i in 0..list.len() {
        value = eval_step(alloc, value, list.value(i), &*body, root, &*scope)?;
    }
    Ok(or_null(value))
}

#[cycle(eval)]
fn eval_step<'a>(
    alloc: Global,
    value: Option<Value>,
    this: &'a Value,
    body: &'a Expr,
    root: &Doc,
    scope: &'a Scope<'a>,
) -> Result<Option<Value>, EvalError>
    ensures { Gives (option_map tree_of) result (step (value_of (node_of body.now)) (env_of root.now (names_in scope.now)) (option_map tree_of value) (tree_of this.now)) }
{
    let outer = Scope::One(&*scope, b"value", value.as_ref());
    let inner = Scope::One(&outer, b"this", Some(this));
    let next = eval_in(alloc, &*body, root, &inner)?;
    shallow(Some(or_null(next)))
}
