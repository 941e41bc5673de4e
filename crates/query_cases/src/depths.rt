//! Bounds on the depth of values: `10 ["$a"] -> 10`.

use crate::answers::{one, word};
use crate::trees::expr_in;
use bson_value::{Text, Value};
use case_notation::{Item, Table};
use expr_eval::depth_bound;
use expr_tree::Expr;
use std::alloc::Global;

/// The table of bounds.
pub(crate) struct Depths;

// The bounds of the names that are bound outside.
fn bounds_outside(alloc: Global) -> Option<Vec<(Text, u64)>> {
    let mut bounds = Vec::new(alloc);
    bounds.push((Text::of(alloc, "x").ok()?, 3)).ok()?;
    bounds.push((Text::of(alloc, "x").ok()?, 5)).ok()?;
    bounds.push((Text::of(alloc, "big").ok()?, u64::MAX)).ok()?;
    Some(bounds)
}

fn depth_in(value: &Value) -> Option<u32> {
    let depth = match value {
        Value::Int(depth) => i64::from(*depth),
        Value::Long(depth) => *depth,
        _ => return None,
    };
    u32::try_from(depth).ok()
}

fn shown(alloc: Global, bound: u64) -> Option<Item> {
    if bound == u64::MAX {
        return word(alloc, "most");
    }
    match i32::try_from(bound) {
        Ok(bound) => Some(Item::Value(Value::Int(bound))),
        Err(_) => Some(Item::Value(Value::Long(i64::try_from(bound).ok()?))),
    }
}

fn bound_of(alloc: Global, expr: &Expr, depth: u32) -> Option<Item> {
    let bounds = bounds_outside(alloc)?;
    shown(alloc, depth_bound(expr, depth, bounds.as_slice()))
}

impl Table for Depths {
    fn answer(&self, alloc: Global, question: &[Item]) -> Option<Vec<Item>> {
        let [depth, expr @ ..] = question else {
            return None;
        };
        let depth = depth_in(depth.value()?)?;
        let expr = expr_in(alloc, expr)?;
        one(alloc, bound_of(alloc, &expr, depth)?)
    }
}
