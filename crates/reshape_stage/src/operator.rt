//! The operator of a stage.

ghost use Rattle.std.specs.Prelude.{◌≡◌, ◌∷◌, ◌++◌, [], IfOk, IfSome, OnOk, Some};
ghost use Rattle.bson_value.specs.Gives.{Gives};
ghost use Rattle.bson_value.specs.View.{tree_of};
ghost use Rattle.bson_value.specs.Tree.{leaf};
ghost use Rattle.expr_tree.specs.QueryView.{query_of};
ghost use Rattle.stage_tree.specs.StageView.{stage_of, items_in, made_in};
ghost use Rattle.stage_tree.specs.Rows.{number_of, steps_of, with_id as the_with_id};
ghost use Rattle.reshape_stage.specs.Work.{each, passes, includes, counting, one_item, project_shape, started, head_of, gives, added, after, ends};
ghost use Rattle.reshape_stage.specs.Seen.{shape_of, work_of, OnCode};

use crate::fields::id_path;
use crate::shape::Shape;
use bson_value::{Doc, Docs, EvalError, Name, NoMemory, Path, Value};
use expr_tree::{Expr, Query};
use stage_tree::{Item, Project, Row, Stage};
use std::alloc::Global;
use std::marker::Model;

/// So many documents are counted at most.
const MOST_COUNTED: u64 = 0x4000_0000_0000_0000;

/// What a stage does.
#[derive(Drop)]
pub(crate) enum Kind {
    /// The same with each document.
    Each(Shape),
    /// The first documents stay.
    Limit,
    /// The first documents are left out.
    Skip,
    /// The documents are counted, into a field of this name.
    Count(Name),
}

/// The operator of a stage that works document by document. Seen as what it has still to do.
#[derive(Drop)]
pub struct ReshapeOp {
    kind: Kind,
    number: u64,
}

impl Model for ReshapeOp {
    ghost use Rattle.reshape_stage.specs.Work.{Work};
    ghost use Rattle.reshape_stage.specs.WorkCode.{work_code};

    ghost Value = { Work };

    ghost coded = { work_code };

    ghost use Rattle.reshape_stage.specs.Seen.{work_of};

    ghost view = { λ o. work_of o.kind o.number };
}

impl ReshapeOp {
    /// The operator of the stage, which is copied. None exactly where the stage doesn't work document by document, or
    /// is a Match of no or of several conditions.
    pub fn new(alloc: Global, stage: &Stage) -> Result<Option<ReshapeOp>, NoMemory>
        ensures { IfOk result (λ o. o ≡ started (head_of (stage_of stage.now))) }
    {
        match stage {
            Stage::Match(items) => of_items(alloc, items),
            Stage::Limit(n) => Ok(Some(ReshapeOp {
                kind: Kind::Limit,
                number: *n,
            })),
            Stage::Skip(n) => Ok(Some(ReshapeOp {
                kind: Kind::Skip,
                number: *n,
            })),
            Stage::Count(name) => Ok(Some(ReshapeOp {
                kind: Kind::Count(name.copy(alloc)?),
                number: 0,
            })),
            Stage::Keep(names) => Ok(Some(of_shape(Shape::Keep(names.copy(alloc)?)))),
            Stage::Project(project) => Ok(Some(of_shape(of_project(alloc, project)?))),
            Stage::AddFields(made) => Ok(Some(of_shape(Shape::Set(made.copy(alloc)?)))),
            Stage::Unset(paths) => Ok(Some(of_shape(Shape::Remove(paths.copy(alloc)?)))),
            Stage::ReplaceRoot(expr) => Ok(Some(of_shape(Shape::Become(expr.copy(alloc)?)))),
            Stage::Unwind(unwind) => Ok(Some(of_shape(Shape::Unwind(unwind.copy(alloc)?)))),
            Stage::Group(_) => Ok(None),
            Stage::Sort(_) => Ok(None),
            Stage::Lookup(_) => Ok(None),
            Stage::GraphLookup(_) => Ok(None),
            Stage::Facet(_) => Ok(None),
            Stage::Union(_, _) => Ok(None),
            Stage::Window(_) => Ok(None),
            Stage::Merge(_) => Ok(None),
        }
    }

    /// The operator of a Match of this condition alone, which is copied.
    pub fn matching(alloc: Global, query: &Query) -> Result<ReshapeOp, NoMemory>
        ensures { IfOk result (λ o. o ≡ each (passes (query_of query.now))) }
    {
        Ok(of_shape(Shape::Match(query.copy(alloc)?)))
    }

    /// Takes one more document and appends what it gives to `out`. A code changes neither. Past 2^62 documents a count
    /// is refused for want of memory.
    pub fn push(&mut self, alloc: Global, doc: Doc, out: &mut Docs) -> Result<(), EvalError>
        ensures given { Gives (λ _. out.new) result (added out.old (gives self.old doc)) }
        ensures next { OnOk result (self.new ≡ after self.old) }
        ensures stays { OnCode result ((self.new ≡ self.old) × (out.new ≡ out.old)) }
    {
        match &self.kind {
            Kind::Each(shape) => shape.reshape(alloc, doc, out),
            Kind::Limit => {
                if self.number > 0 {
                    out.add(doc)?;
                    self.number -= 1;
                }
                Ok(())
            }
            Kind::Skip => {
                if self.number > 0 {
                    self.number -= 1;
                    Ok(())
                } else {
                    Ok(out.add(doc)?)
                }
            }
            Kind::Count(_) => {
                if self.number >= MOST_COUNTED {
                    return Err(EvalError::Memory);
                }
                self.number += 1;
                Ok(())
            }
        }
    }

    /// Appends what comes when there are no more documents. What is to be done stays as it is.
    pub fn finish(&mut self, alloc: Global, out: &mut Docs) -> Result<(), NoMemory>
        ensures given { OnOk result (out.new ≡ out.old ++ ends self.old) }
        ensures stays { OnOk result (self.new ≡ self.old) }
    {
        match &self.kind {
            Kind::Count(name) => add_number(alloc, name, self.number, out),
            Kind::Each(_) => Ok(()),
            Kind::Limit => Ok(()),
            Kind::Skip => Ok(()),
        }
    }
}

fn of_shape(shape: Shape) -> ReshapeOp
    ensures { result ≡ each (shape_of shape) }
{
    ReshapeOp {
        kind: Kind::Each(shape),
        number: 0,
    }
}

fn of_items(alloc: Global, items: &Row<Item>) -> Result<Option<ReshapeOp>, NoMemory>
    ensures { IfOk result (λ o. o ≡ one_item (items_in items.now)) }
{
    match items.items() {
        [item] => Ok(Some(ReshapeOp::matching(alloc, &item.query)?)),
        _ => Ok(None),
    }
}

fn of_project(alloc: Global, project: &Project) -> Result<Shape, NoMemory>
    ensures { IfOk result (λ s. shape_of s ≡ project_shape project.now.keeps_id project.now.excludes project.now.paths (made_in project.now.made)) }
{
    if project.excludes {
        Ok(Shape::Remove(with_id(alloc, !project.keeps_id, &project.paths)?))
    } else {
        let paths = with_id(alloc, project.keeps_id, &project.paths)?;
        let made = project.made.copy(alloc)?;
        inclusion(alloc, paths, made)
    }
}

fn inclusion(alloc: Global, paths: Row<Path>, made: Row<(Path, Expr)>) -> Result<Shape, NoMemory>
    ensures { IfOk result (λ s. shape_of s ≡ includes paths (made_in made)) }
{
    match names_in(alloc, paths.items())? {
        Some(names) => Ok(Shape::IncludeNamed(names, made)),
        None => Ok(Shape::Include(paths, made)),
    }
}

// The names that the paths are, where each has one step.
fn names_in(alloc: Global, paths: &[Path]) -> Result<Option<Row<Name>>, NoMemory>
    ensures { IfOk result (λ o. IfSome o (λ ns. steps_of ns ≡ paths.now)) }
{
    let mut names = Row::new(alloc);
    for path in paths {
        match path.steps() {
            [name] => names.add(name.copy(alloc)?)?,
            _ => return Ok(None),
        }
    }
    Ok(Some(names))
}

// The paths, with `_id` in front where it is wanted.
fn with_id(alloc: Global, wanted: bool, paths: &Row<Path>) -> Result<Row<Path>, NoMemory>
    ensures { IfOk result (λ ps. ps ≡ the_with_id wanted paths.now) }
{
    let mut all = id_alone(alloc, wanted)?;
    for path in paths.items() {
        all.add(path.copy(alloc)?)?;
    }
    Ok(all)
}

fn id_alone(alloc: Global, wanted: bool) -> Result<Row<Path>, NoMemory>
    ensures { IfOk result (λ ps. ps ≡ the_with_id wanted []) }
{
    let mut paths = Row::new(alloc);
    if wanted {
        paths.add(id_path(alloc)?)?;
    }
    Ok(paths)
}

// Appends the document of the number of documents, where there were some.
fn add_number(alloc: Global, name: &Name, number: u64, out: &mut Docs) -> Result<(), NoMemory>
    ensures { OnOk result (out.new ≡ out.old ++ ends (counting name.now number)) }
{
    if number == 0 {
        return Ok(());
    }
    let mut doc = Doc::new(alloc);
    doc.append(name.copy(alloc)?, number_value(number)?)?;
    out.add(doc)
}

// The number as an Int where it fits, else as a Long.
fn number_value(number: u64) -> Result<Value, NoMemory>
    ensures { IfOk result (λ v. tree_of v ≡ leaf (number_of number)) }
{
    match i32::try_from(number) {
        Ok(number) => Ok(Value::Int(number)),
        Err(_) => match i64::try_from(number) {
            Ok(number) => Ok(Value::Long(number)),
            Err(_) => Err(NoMemory), // so many documents aren't counted
        },
    }
}
