//! How deep the value of an expression can be.

ghost use Rattle.std.specs.Prelude.{◌≡◌, ◌++◌, max, map};
ghost use Rattle.expr_tree.specs.Node.{nodes_of, branch_nodes, maybe_node};
ghost use Rattle.expr_tree.specs.View.{node_of, branches_in};
ghost use Rattle.expr_tree.specs.Env.{paired};
ghost use Rattle.expr_tree.specs.Bound.{bound as bound_in, bounds, around, one_more, deepest, first_bound, switch_from, apply_bound, gives_part, gives_made};
ghost use Rattle.expr_eval.specs.Bounds.{bounds_in};

use crate::bound_scope::{BoundScope, bound_of};
use bson_value::{Op, Text, full_depth};
use expr_tree::{Expr, Operand};

/// A bound on the depth of the expression's value over documents of at most that depth. `names` has the bounds of the
/// names that are bound outside, the last of equal names counting; a name that is bound nowhere has bound 0. A bound
/// that passes 2^64 - 1 counts as that. The call takes no memory but stack.
pub fn depth_bound(expr: &Expr, depth: u32, names: &[(Text, u64)]) -> u64
    ensures { result ≡ bound_in (node_of expr.now) (around depth names.now) }
{
    bound(expr, depth, &BoundScope::Outer(names))
}

fn one_deeper(depth: u64) -> u64
    ensures { result ≡ one_more depth }
{
    depth.saturating_add(1)
}

// Whether the operator gives its first operand, a part of it or an array of such parts.
fn is_part(op: Op) -> bool
    ensures { result ≡ gives_part op }
{
    matches!(
        op,
        Op::ArrayElemAt | Op::First | Op::Last | Op::Slice | Op::ReverseArray
    )
}

// Whether the operator gives another array or document.
fn is_made(op: Op) -> bool
    ensures { result ≡ gives_made op }
{
    matches!(
        op,
        Op::ConcatArrays
            | Op::Range
            | Op::SetUnion
            | Op::SetIntersection
            | Op::SetDifference
            | Op::ArrayToObject
            | Op::ObjectToArray
            | Op::MergeObjects
            | Op::Split
    )
}

#[cycle(bound)]
fn bound<'a>(expr: &'a Expr, depth: u32, scope: &'a BoundScope<'a>) -> u64
    ensures { result ≡ bound_in (node_of expr.now) (around depth (bounds_in scope.now)) }
{
    match expr {
        Expr::Literal(value) => full_depth(value),
        Expr::Field(_) => u64::from(depth.saturating_sub(1)),
        Expr::Root(None) => u64::from(depth),
        Expr::Root(Some(_)) => u64::from(depth.saturating_sub(1)),
        Expr::Var(name, _) => bound_of(scope, name.bytes()),
        Expr::Remove => 0,
        Expr::Make(fields) => one_deeper(deepest_of(fields.exprs(), depth, scope)),
        Expr::MakeList(exprs) => one_deeper(deepest_of(exprs.exprs(), depth, scope)),
        Expr::Apply(op, exprs) => applied(*op, exprs.exprs(), depth, scope),
        Expr::And(_) => 0,
        Expr::Or(_) => 0,
        Expr::Cond(_, yes, no) => bound(yes.expr(), depth, scope).max(bound(
            no.expr(),
            depth,
            scope,
        )),
        Expr::IfNull(exprs) => deepest_of(exprs.exprs(), depth, scope),
        Expr::Switch(branches, default) => switched(branches.branches(), default, depth, scope),
        Expr::Let(bindings, body) => bound_with(
            bindings.names(),
            bindings.exprs(),
            scope,
            body.expr(),
            depth,
            scope,
        ),
        Expr::Map(input, name, body) => {
            let of_input = bound(input.expr(), depth, scope);
            let inner = BoundScope::More(&*scope, name.bytes(), of_input);
            one_deeper(bound(body.expr(), depth, &inner))
        }
        Expr::Filter(input, _, _) => bound(input.expr(), depth, scope),
        Expr::Reduce(_, _, _) => 200,
        Expr::DatePart(_, _) => 0,
        Expr::DateAdd(_, _, _, _) => 0,
        Expr::DateDiff(_, _, _) => 0,
        Expr::DateTrunc(_, _) => 0,
    }
}

#[cycle(bound)]
fn applied<'a>(op: Op, exprs: &'a [Expr], depth: u32, scope: &'a BoundScope<'a>) -> u64
    ensures { result ≡ apply_bound op (bounds (nodes_of (map node_of exprs.now))) (around depth (bounds_in scope.now)) }
{
    if is_part(op) {
        first_of(exprs, depth, scope)
    } else if is_made(op) {
        one_deeper(deepest_of(exprs, depth, scope)).max(2)
    } else {
        0
    }
}

#[cycle(bound)]
fn first_of<'a>(exprs: &'a [Expr], depth: u32, scope: &'a BoundScope<'a>) -> u64
    ensures { result ≡ first_bound (bounds (nodes_of (map node_of exprs.now))) (around depth (bounds_in scope.now)) }
{
    match exprs {
        [] => 0,
        [first, ..] => bound(first, depth, scope),
    }
}

#[cycle(bound)]
fn deepest_of<'a>(exprs: &'a [Expr], depth: u32, scope: &'a BoundScope<'a>) -> u64
    ensures { result ≡ deepest (bounds (nodes_of (map node_of exprs.now))) (around depth (bounds_in scope.now)) }
{
    let mut greatest = 0;
    for expr in exprs {
        greatest = bound(expr, depth, scope).max(greatest);
    }
    greatest
}

#[cycle(bound)]
fn switched<'a>(
    branches: &'a [(Expr, Expr)],
    default: &'a Option<Operand>,
    depth: u32,
    scope: &'a BoundScope<'a>,
) -> u64
    ensures { result ≡ switch_from 0 (bounds (branch_nodes (branches_in branches.now) (maybe_node default.now))) (around depth (bounds_in scope.now)) }
{
    let mut greatest = 0;
    for branch in branches {
        greatest = bound(&branch.1, depth, scope).max(greatest);
    }
    match default {
        Some(default) => bound(default.expr(), depth, scope).max(greatest),
        None => greatest,
    }
}

// The bound of the body, with the names bound to the values of the expressions, which are taken in the outer scope.
#[cycle(bound)]
fn bound_with<'a>(
    names: &'a [Text],
    exprs: &'a [Expr],
    outer: &'a BoundScope<'a>,
    body: &'a Expr,
    depth: u32,
    scope: &'a BoundScope<'a>,
) -> u64
    ensures { result ≡ bound_in (node_of body.now)
        (around depth (bounds_in scope.now ++ paired names.now (map (λ m. m (around depth (bounds_in outer.now))) (bounds (nodes_of (map node_of exprs.now)))))) }
{
    match names {
        [] => bound(body, depth, scope),
        [name, more @ ..] => match exprs {
            [] => bound(body, depth, scope),
            [first, others @ ..] => {
                let of_first = bound(first, depth, outer);
                let inner = BoundScope::More(&*scope, name.bytes(), of_first);
                bound_with(&*more, &*others, &*outer, &*body, depth, &inner)
            }
        },
    }
}
