//! What is done to each document alike.

ghost use Rattle.std.specs.Prelude.{◌≡◌, ◌∷◌, ◌++◌, [], IfOk};
ghost use Rattle.bson_value.specs.Gives.{Gives};
ghost use Rattle.reshape_stage.specs.Work.{shaped, added};
ghost use Rattle.reshape_stage.specs.Seen.{shape_of, OnCode};

use crate::fields::keep_named;
use crate::project::{include, include_named};
use crate::unwind::unwind_into;
use crate::values::{add_fields, new_root, unset_all};
use bson_value::{Doc, Docs, EvalError, Name, Path};
use expr_tree::{Expr, Query};
use query_eval::matches;
use stage_tree::{Row, Unwind};
use std::alloc::Global;

/// What a stage does to each document, whatever came before it.
#[derive(Drop)]
pub(crate) enum Shape {
    /// Only the fields of these names stay.
    Keep(Row<Name>),
    /// It stays where the condition holds.
    Match(Query),
    /// These paths stay, others are set, and `_id` comes first.
    Include(Row<Path>, Row<(Path, Expr)>),
    /// The same where each path that stays is a name.
    IncludeNamed(Row<Name>, Row<(Path, Expr)>),
    /// These paths are removed.
    Remove(Row<Path>),
    /// These paths are set.
    Set(Row<(Path, Expr)>),
    /// The expression's document takes its place.
    Become(Expr),
    /// A document comes for each element of an array.
    Unwind(Unwind),
}

impl Shape {
    /// Appends what the document gives. A code changes nothing.
    pub(crate) fn reshape(&self, alloc: Global, doc: Doc, out: &mut Docs) -> Result<(), EvalError>
        ensures given { Gives (λ _. out.new) result (added out.old (shaped (shape_of self.now) doc)) }
        ensures stays { OnCode result (out.new ≡ out.old) }
    {
        match self {
            Shape::Keep(names) => Ok(out.add(keep_named(alloc, doc, names.items())?)?),
            Shape::Match(query) => {
                if matches(alloc, query, &doc)? {
                    out.add(doc)?;
                }
                Ok(())
            }
            Shape::Include(paths, made) => {
                Ok(out.add(include(alloc, doc, paths.items(), made.items())?)?)
            }
            Shape::IncludeNamed(names, made) => {
                Ok(out.add(include_named(alloc, doc, names.items(), made.items())?)?)
            }
            Shape::Remove(paths) => Ok(out.add(unset_all(doc, paths.items())?)?),
            Shape::Set(made) => Ok(out.add(add_fields(alloc, doc, made.items())?)?),
            Shape::Become(expr) => Ok(out.add(new_root(alloc, &doc, expr)?)?),
            Shape::Unwind(unwind) => Ok(unwind_into(alloc, doc, unwind, out)?),
        }
    }
}
