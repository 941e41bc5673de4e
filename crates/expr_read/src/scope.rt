//! The names that are bound where an expression stands.

ghost use Rattle.std.specs.Prelude.{◌≡◌};
ghost use Rattle.expr_tree.specs.Forms.{is_bound};
ghost use Rattle.expr_read.specs.Reading.{names_of, fields_seen};
ghost use Rattle.expr_read.specs.Scopes.{names_in};

use bson_value::Doc;

/// The names that are bound where an expression stands: those of the innermost operator, and the scope around it.
/// It lies on the stack of the reader.
#[derive(Clone, Copy)]
pub enum Scope<'a> {
    /// No name.
    Empty,
    /// One name more.
    Name(&'a Scope<'a>, &'a [u8]),
    /// The names of the fields of a document more.
    Fields(&'a Scope<'a>, &'a Doc),
}

fn has_name(doc: &Doc, name: &[u8]) -> bool
    ensures { result ≡ is_bound name.now (names_of (fields_seen doc.now)) }
{
    doc.get(name).is_some()
}

/// The name is bound.
pub fn is_bound(scope: &Scope<'_>, name: &[u8]) -> bool
    ensures { result ≡ is_bound name.now (names_in scope.now) }
{
    match scope {
        Scope::Empty => false,
        Scope::Name(outer, bound) => *bound == name || is_bound(outer, name),
        Scope::Fields(outer, doc) => has_name(doc, name) || is_bound(outer, name),
    }
}
