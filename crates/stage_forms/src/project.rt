//! `$project` and `$addFields`.

ghost use Rattle.std.specs.Prelude.{◌≡◌, [], Some};
ghost use Rattle.std.specs.Option.{option_and_then};
ghost use Rattle.bson_value.specs.View.{tree_of};
ghost use Rattle.expr_read.specs.Reading.{reading};
ghost use Rattle.expr_read.specs.Reads.{Reads};
ghost use Rattle.expr_tree.specs.View.{node_of};
ghost use Rattle.stage_tree.specs.StageView.{stage_of, made_in};
ghost use Rattle.stage_forms.specs.Leaves.{leaves_reading};
ghost use Rattle.stage_forms.specs.Project.{said, keeps_id};
ghost use Rattle.stage_forms.specs.Reading.{set_reading, made_from, add_fields_reading, listed_more, set_more, part_from, parts_from, project_over, project_leaves, project_reading};
ghost use Rattle.stage_forms.specs.Views.{leaves_in};

use crate::leaves::{Found, Leaves, read_leaves};
use crate::said::{excludes, is_even, is_id, keeps_id, said};
use bson_value::{Path, Value};
use expr_read::{FormError, read_expr};
use expr_tree::Expr;
use stage_parts::doc_in;
use stage_tree::{Project, Row, Stage};
use std::alloc::Global;

type Made = Row<(Path, Expr)>;

// The paths that are kept or removed, and those that are set.
type Parts = (Row<Path>, Made);

fn read_set(alloc: Global, path: Path, value: &Value) -> Result<(Path, Expr), FormError>
    ensures { Reads (λ m. (m.0, node_of m.1)) result (set_reading (path, tree_of value.now)) }
{
    match read_expr(alloc, value) {
        Ok(expr) => Ok((path, expr)),
        Err(e) => Err(e),
    }
}

fn read_made(alloc: Global, found: Found<'_>) -> Result<Made, FormError>
    ensures { Reads made_in result (made_from [] (leaves_in found.entry.items)) }
{
    let mut leaves = Leaves::new(found);
    let mut made = Row::new(alloc);
    while let Some((path, value)) = leaves.next() {
        let part = read_set(alloc, path, value)?;
        made.add(part)?;
    }
    Ok(made)
}

/// `$addFields` and `$set`
pub fn read_add_fields(alloc: Global, value: &Value) -> Result<Stage, FormError>
    ensures { Reads stage_of result (add_fields_reading (tree_of value.now)) }
{
    match doc_in(value) {
        Some(doc) => {
            let found = read_leaves(alloc, doc)?;
            let made = read_made(alloc, found)?;
            Ok(Stage::AddFields(made))
        }
        None => Err(FormError::Form),
    }
}

fn listed_more(parts: Parts, path: Path) -> Result<Parts, FormError>
    ensures { Reads (λ p. (p.0, made_in p.1)) result (Some (listed_more path (parts.0, made_in parts.1))) }
{
    let (mut paths, made) = parts;
    if !is_id(&path) {
        paths.add(path)?;
    }
    Ok((paths, made))
}

fn set_more(parts: Parts, part: (Path, Expr)) -> Result<Parts, FormError>
    ensures { Reads (λ p. (p.0, made_in p.1)) result (Some (set_more (parts.0, made_in parts.1) (part.0, node_of part.1))) }
{
    let (paths, mut made) = parts;
    made.add(part)?;
    Ok((paths, made))
}

fn read_part(alloc: Global, parts: Parts, path: Path, value: &Value) -> Result<Parts, FormError>
    ensures { Reads (λ p. (p.0, made_in p.1)) result (part_from (said (tree_of value.now)) (parts.0, made_in parts.1) (path, tree_of value.now)) }
{
    match said(value) {
        Some(_) => listed_more(parts, path),
        None => {
            let part = read_set(alloc, path, value)?;
            set_more(parts, part)
        }
    }
}

fn read_parts(alloc: Global, found: Found<'_>) -> Result<Parts, FormError>
    ensures { Reads (λ p. (p.0, made_in p.1)) result (parts_from ([], []) (leaves_in found.entry.items)) }
{
    let mut leaves = Leaves::new(found);
    let mut parts = (Row::new(alloc), Row::new(alloc));
    while let Some((path, value)) = leaves.next() {
        parts = read_part(alloc, parts, path, value)?;
    }
    Ok(parts)
}

fn read_over(alloc: Global, excludes: bool, found: Found<'_>) -> Result<Stage, FormError>
    ensures { Reads stage_of result (project_over excludes (leaves_in found.entry.items)) }
{
    if !is_even(excludes, found.as_slice()) {
        return Err(FormError::Form);
    }
    let keeps_id = keeps_id(excludes, found.as_slice());
    let (paths, made) = read_parts(alloc, found)?;
    Ok(Stage::Project(Project {
        keeps_id,
        excludes,
        paths,
        made,
    }))
}

/// `$project`
pub fn read_project(alloc: Global, value: &Value) -> Result<Stage, FormError>
    ensures { Reads stage_of result (project_reading (tree_of value.now)) }
{
    match doc_in(value) {
        Some(doc) => {
            let found = read_leaves(alloc, doc)?;
            let excludes = excludes(found.as_slice());
            read_over(alloc, excludes, found)
        }
        None => Err(FormError::Form),
    }
}
