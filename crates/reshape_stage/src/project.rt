//! An inclusion.

ghost use Rattle.std.specs.Prelude.{◌≡◌, ◌∷◌, [], IfOk};
ghost use Rattle.bson_value.specs.Gives.{Gives};
ghost use Rattle.stage_tree.specs.StageView.{made_in};
ghost use Rattle.stage_tree.specs.Rows.{steps_of, set_all as the_set_all, id_first as the_id_first};
ghost use Rattle.reshape_stage.specs.Work.{include as the_include};
ghost use Rattle.reshape_stage.specs.Seen.{set_in};

use crate::fields::{id_first, keep_named};
use crate::values::{Values, set_all, values_for};
use bson_value::{Doc, EvalError, Name, NoMemory, Path};
use doc_path::keep;
use expr_tree::Expr;
use std::alloc::Global;

/// The document of the paths that are kept, then those that are set, with `_id` in front (the manual, `$project`). The
/// expressions are evaluated on the document as it was.
pub(crate) fn include(
    alloc: Global,
    doc: Doc,
    paths: &[Path],
    made: &[(Path, Expr)],
) -> Result<Doc, EvalError>
    ensures { Gives (λ d. d ∷ []) result (the_include paths.now (made_in made.now) doc) }
{
    let values = values_for(alloc, &doc, made)?;
    let kept = keep(alloc, doc, paths)?;
    Ok(set_behind(alloc, kept, values)?)
}

/// The same where each path that is kept is a name.
pub(crate) fn include_named(
    alloc: Global,
    doc: Doc,
    names: &[Name],
    made: &[(Path, Expr)],
) -> Result<Doc, EvalError>
    ensures { Gives (λ d. d ∷ []) result (the_include (steps_of names.now) (made_in made.now) doc) }
{
    let values = values_for(alloc, &doc, made)?;
    let kept = keep_named(alloc, doc, names)?;
    Ok(set_behind(alloc, kept, values)?)
}

fn set_behind(alloc: Global, kept: Doc, values: Values<'_>) -> Result<Doc, NoMemory>
    ensures { IfOk result (λ d. d ≡ the_id_first (the_set_all (set_in values.entry.items) kept)) }
{
    let full = set_all(alloc, kept, values)?;
    id_first(alloc, full)
}
