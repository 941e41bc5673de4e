//! Bounds of values that stages set.

ghost use Rattle.std.specs.Prelude.{◌≡◌, map};
ghost use Rattle.std.specs.Option.{option_map};
ghost use Rattle.expr_tree.specs.View.{node_of};
ghost use Rattle.stage_tree.specs.StageView.{made_in, unwind_of, window_of};
ghost use Rattle.pipeline_limits.specs.Limits.{value_bound, at_path, made_bound, index_bound, joined_bound, level_bound, arguments_bound, taken_bound, functions_bound, outputs_bound};

use bson_value::{AccKind, Name, Path, full_depth};
use expr_eval::depth_bound;
use expr_tree::Expr;
use stage_tree::{Unwind, WindowFn};

/// The bound of the expression's value.
pub(crate) fn bound_of(expr: &Expr, depth: u32) -> u64
    ensures { result ≡ value_bound depth (node_of expr.now) }
{
    depth_bound(expr, depth, &[])
}

/// The bound of a document with a value of this bound at the path.
pub(crate) fn bound_at(path: &Path, bound: u64) -> u64
    ensures { result ≡ at_path path.now bound }
{
    path.known();
    let levels = 2 * path.len() as u64 - 1;
    levels.saturating_add(bound)
}

/// The bound behind a stage that sets these paths.
pub(crate) fn bound_with_made(made: &[(Path, Expr)], depth: u32) -> u64
    ensures { result ≡ made_bound (made_in made.now) depth }
{
    let mut bound = u64::from(depth);
    for field in made {
        bound = bound_at(&field.0, bound_of(&field.1, depth)).max(bound);
    }
    bound
}

/// The bound behind an `$unwind` with this path for the index.
pub(crate) fn bound_with_index(index: &Option<Path>, bound: u64) -> u64
    ensures { result ≡ index_bound index.now bound }
{
    match index {
        Some(path) => bound_at(path, 0).max(bound),
        None => bound,
    }
}

/// The bound behind an `$unwind`, where there is one.
pub(crate) fn bound_with_unwind(unwind: &Option<Unwind>, bound: u64) -> u64
    ensures { result ≡ joined_bound (option_map unwind_of unwind.now) bound }
{
    match unwind {
        Some(unwind) => bound_with_index(&unwind.index, bound),
        None => bound,
    }
}

/// The levels that a path to a number needs, where there is a path.
pub(crate) fn levels_of(path: &Option<Path>) -> u64
    ensures { result ≡ level_bound path.now }
{
    match path {
        Some(path) => bound_at(path, 0),
        None => 0,
    }
}

/// The greatest bound of the arguments and of what was found before.
pub(crate) fn deepest_argument(parts: &[(Name, AccKind, Expr)], found: u64, depth: u32) -> u64
    ensures { result ≡ arguments_bound found depth (map (λ p. (p.0, (p.1, node_of p.2))) parts.now) }
{
    let mut deepest = found;
    for part in parts {
        deepest = bound_of(&part.2, depth).max(deepest);
    }
    deepest
}

fn bound_taken(function: &WindowFn, depth: u32) -> u64
    ensures { result ≡ taken_bound depth (window_of function.now) }
{
    match function {
        WindowFn::Acc(_, argument, _, _) => bound_of(argument, depth),
        WindowFn::Rank => 0,
        WindowFn::DenseRank => 0,
        WindowFn::Number => 0,
        WindowFn::Shift(output, _, default) => {
            let of_output = bound_of(output, depth);
            of_output.max(full_depth(default))
        }
    }
}

/// The greatest bound of what the functions take and of what was found before.
pub(crate) fn deepest_taken(outputs: &[(Path, WindowFn)], found: u64, depth: u32) -> u64
    ensures { result ≡ functions_bound found depth (map (λ o. (o.0, window_of o.1)) outputs.now) }
{
    let mut deepest = found;
    for output in outputs {
        deepest = bound_taken(&output.1, depth).max(deepest);
    }
    deepest
}

/// The bound behind a stage that sets each of the paths to a value of this bound.
pub(crate) fn bound_with_outputs(outputs: &[(Path, WindowFn)], value: u64, depth: u32) -> u64
    ensures { result ≡ outputs_bound (map (λ o. (o.0, window_of o.1)) outputs.now) value depth }
{
    let mut bound = u64::from(depth);
    for output in outputs {
        bound = bound_at(&output.0, value).max(bound);
    }
    bound
}
