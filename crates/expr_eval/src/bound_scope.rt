//! The bounds of the names around an expression, each scope on the stack.

ghost use Rattle.std.specs.Prelude.{◌≡◌};
ghost use Rattle.expr_tree.specs.Env.{last_of};
ghost use Rattle.expr_eval.specs.Seen.{later_of};
ghost use Rattle.expr_eval.specs.Bounds.{bounds_in};

use bson_value::Text;

/// Names and the bounds of what they are bound to, the inner ones last.
#[derive(Clone, Copy)]
pub(crate) enum BoundScope<'a> {
    /// The names that are bound outside.
    Outer(&'a [(Text, u64)]),
    /// One name more.
    More(&'a BoundScope<'a>, &'a [u8], u64),
}

/// The bound of what the name is bound to; 0 where it is bound nowhere.
pub(crate) fn bound_of(scope: &BoundScope<'_>, name: &[u8]) -> u64
    ensures { result ≡ last_of name.now 0 (bounds_in scope.now) }
{
    match scope {
        BoundScope::Outer(names) => outer_bound(*names, name),
        BoundScope::More(rest, bound, depth) => later(*bound, *depth, name, bound_of(*rest, name)),
    }
}

fn outer_bound(names: &[(Text, u64)], name: &[u8]) -> u64
    ensures { result ≡ last_of name.now 0 names.now }
{
    let mut found = 0;
    for bound in names {
        found = later(bound.0.bytes(), bound.1, name, found);
    }
    found
}

fn later(bound: &[u8], depth: u64, name: &[u8], found: u64) -> u64
    ensures { result ≡ later_of name.now (bound.now, depth) found }
{
    if bound == name { depth } else { found }
}
