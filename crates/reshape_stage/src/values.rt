//! The values of a stage's expressions, and the paths that are set to them.

ghost use Rattle.std.specs.Prelude.{◌≡◌, ◌∷◌, [], IfOk};
ghost use Rattle.std.specs.Option.{option_map};
ghost use Rattle.bson_value.specs.View.{tree_of};
ghost use Rattle.bson_value.specs.Gives.{Gives};
ghost use Rattle.expr_tree.specs.View.{node_of};
ghost use Rattle.stage_tree.specs.StageView.{made_in};
ghost use Rattle.stage_tree.specs.Rows.{values_for as the_values_for, set_all as the_set_all, unset_all as the_unset_all, add_fields_row, replace_root_row, new_root as the_new_root};
ghost use Rattle.reshape_stage.specs.Seen.{set_in, noted};

use bson_value::{Doc, EvalCode, EvalError, NoMemory, Path, Value};
use doc_path::{set, unset};
use expr_eval::{Env, Names, eval};
use expr_tree::Expr;
use std::alloc::Global;
use std::collections::VecDeque;

/// Paths with the values to which they are set, missing ones among them.
pub(crate) type Values<'a> = VecDeque<(&'a Path, Option<Value>)>;

/// The lesser of the code and of one that was met before.
pub fn lesser(met: Option<EvalCode>, code: EvalCode) -> EvalCode
    ensures { result ≡ noted met code }
{
    match met {
        Some(met) => {
            if code.number() < met.number() {
                code
            } else {
                met
            }
        }
        None => code,
    }
}

/// All paths with the values of their expressions on the document. Each expression is evaluated, also behind one that
/// fails, and the least of all codes stands.
pub(crate) fn values_for<'a>(
    alloc: Global,
    doc: &Doc,
    made: &'a [(Path, Expr)],
) -> Result<Values<'a>, EvalError>
    ensures { Gives (λ vs. set_in vs.items) result (the_values_for doc.now (made_in made.now)) }
{
    let env = Env {
        root: doc,
        names: Names::new(alloc),
    };
    let mut values = VecDeque::new(alloc);
    let mut least = None;
    for field in made {
        match eval(alloc, &field.1, &env) {
            Ok(value) => values.push_back((&field.0, value))?,
            Err(EvalError::Code(code)) => least = Some(lesser(least, code)),
            Err(EvalError::Memory) => return Err(EvalError::Memory),
        }
    }
    match least {
        Some(code) => Err(EvalError::Code(code)),
        None => Ok(values),
    }
}

/// The document with the paths set one after another.
pub(crate) fn set_all(alloc: Global, doc: Doc, values: Values<'_>) -> Result<Doc, NoMemory>
    ensures { IfOk result (λ d. d ≡ the_set_all (set_in values.entry.items) doc) }
{
    let mut doc = doc;
    let mut values = values;
    while let Some((path, value)) = values.pop_front() {
        doc = set(alloc, doc, path, value)?;
    }
    Ok(doc)
}

/// The document without the paths.
pub(crate) fn unset_all(doc: Doc, paths: &[Path]) -> Result<Doc, NoMemory>
    ensures { IfOk result (λ d. d ≡ the_unset_all paths.now doc) }
{
    let mut doc = doc;
    for path in paths {
        doc = unset(doc, path)?;
    }
    Ok(doc)
}

/// The document with the paths set to the values that their expressions have on it as it was (the manual,
/// `$addFields`).
pub(crate) fn add_fields(alloc: Global, doc: Doc, made: &[(Path, Expr)]) -> Result<Doc, EvalError>
    ensures { Gives (λ d. d ∷ []) result (add_fields_row (made_in made.now) doc) }
{
    let values = values_for(alloc, &doc, made)?;
    Ok(set_all(alloc, doc, values)?)
}

/// The document that the expression gives on the document (the manual, `$replaceRoot`).
pub(crate) fn new_root(alloc: Global, doc: &Doc, expr: &Expr) -> Result<Doc, EvalError>
    ensures { Gives (λ d. d ∷ []) result (replace_root_row (node_of expr.now) doc.now) }
{
    let env = Env {
        root: doc,
        names: Names::new(alloc),
    };
    let value = eval(alloc, expr, &env)?;
    into_root(value)
}

fn into_root(value: Option<Value>) -> Result<Doc, EvalError>
    ensures { Gives (λ d. d ∷ []) result (the_new_root (option_map tree_of value)) }
{
    match value {
        Some(Value::Doc(root)) => Ok(root),
        _ => Err(EvalError::Code(EvalCode::NotDocument)),
    }
}
