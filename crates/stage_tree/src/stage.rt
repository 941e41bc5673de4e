//! Stages and pipelines. They hold each other, so they are declared together.

ghost use Rattle.std.specs.Prelude.{◌≡◌, ◌<◌, ◌++◌, ◌∷◌, [], Some, length, slice_get, IfOk, OnOk, OnErr, map};
ghost use Rattle.stage_tree.specs.StageView.{stage_of};

use crate::graph_lookup::GraphLookup;
use crate::group::Group;
use crate::item::Item;
use crate::lookup::Lookup;
use crate::merge::Merge;
use crate::project::Project;
use crate::row::Row;
use crate::sort::Sort;
use crate::unwind::Unwind;
use crate::window::Window;
use bson_value::{Name, NoMemory, Path, Text};
use expr_tree::Expr;
use std::alloc::Global;
use std::marker::Model;

/// A stage of a pipeline (the manual, Aggregation Stages).
#[cycle(stage)]
#[derive(Drop)]
pub enum Stage {
    /// Only the fields of these names stay, in stored order. No written stage is one.
    Keep(Row<Name>),
    /// `$match`: the documents that pass each item, one after another.
    Match(Row<Item>),
    /// `$project`
    Project(Project),
    /// `$addFields` and `$set`: paths that are set, each with its expression.
    AddFields(Row<(Path, Expr)>),
    /// `$unset`
    Unset(Row<Path>),
    /// `$replaceRoot` and `$replaceWith`
    ReplaceRoot(Expr),
    /// `$unwind`
    Unwind(Unwind),
    /// `$group`
    Group(Group),
    /// `$sort`
    Sort(Sort),
    /// `$limit`
    Limit(u64),
    /// `$skip`
    Skip(u64),
    /// `$count`: the name of the field.
    Count(Name),
    /// `$lookup`
    Lookup(Lookup),
    /// `$graphLookup`
    GraphLookup(GraphLookup),
    /// `$facet`: names, each with its pipeline.
    Facet(Facets),
    /// `$unionWith`: the name of the other collection, and the pipeline over it.
    Union(Text, Pipeline),
    /// `$setWindowFields`
    Window(Window),
    /// `$merge`
    Merge(Merge),
}

/// A stage with the numbers of the written stages that it comes from, counted from 1, in rising order. Seen as the
/// stage's tree and these numbers.
#[cycle(stage)]
#[derive(Drop)]
pub struct Placed {
    stage: Stage,
    origins: Row<u32>,
}

impl Model for Placed {
    ghost use Rattle.std.specs.Prelude.{List, ℕ};
    ghost use Rattle.std.specs.Coded.{coded×, coded_list, coded_ℕ};
    ghost use Rattle.stage_tree.specs.Stage.{StageNode, stage_size};
    ghost use Rattle.stage_tree.specs.StageCode.{stage_code};

    ghost Value = { StageNode × List ℕ };

    ghost coded = { coded× stage_code (coded_list coded_ℕ) };

    ghost use Rattle.stage_tree.specs.StageView.{stage_of};

    ghost view = { λ p. (stage_of p.stage, p.origins) };

    ghost size = { λ p. stage_size p.0 };

    ghost use Rattle.std.proofs.Common.{arith};
    ghost use Rattle.stage_tree.specs.StageFalls.{stage_deep};

    ghost size_decreases = { λ a h. omega (arith, stage_deep a.stage) };
}

/// A pipeline: stages, one after another. Seen as the list of their trees with the numbers of the written stages.
#[cycle(stage)]
#[derive(Drop)]
pub struct Pipeline {
    stages: Vec<Placed>,
}

impl Model for Pipeline {
    ghost use Rattle.std.specs.Prelude.{List, ℕ};
    ghost use Rattle.std.specs.Coded.{coded×, coded_list, coded_ℕ};
    ghost use Rattle.stage_tree.specs.Stage.{StageNode, stages_of, stages_size};
    ghost use Rattle.stage_tree.specs.StageCode.{stage_code};

    ghost Value = { List (StageNode × List ℕ) };

    ghost coded = { coded_list (coded× stage_code (coded_list coded_ℕ)) };

    ghost view = { λ p. p.stages.items };

    ghost size = { λ ss. stages_size (stages_of ss) };

    ghost use Rattle.std.proofs.Common.{arith};
    ghost use Rattle.stage_tree.specs.StageFalls.{stages_fall};

    ghost size_decreases = { λ a h. omega (arith, stages_fall a.stages.items) };
}

/// The pipelines of a `$facet`, each with the name of the field that it gives.
#[cycle(stage)]
#[derive(Drop)]
pub struct Facets {
    facets: Vec<(Name, Pipeline)>,
}

impl Model for Facets {
    ghost use Rattle.std.specs.Prelude.{List, ℕ};
    ghost use Rattle.std.specs.Coded.{coded×, coded_list, coded_ℕ};
    ghost use Rattle.stage_tree.specs.Stage.{StageNode, pipes_of, pipes_size};
    ghost use Rattle.stage_tree.specs.StageCode.{stage_code};

    ghost Value = { List (List ℕ × List (StageNode × List ℕ)) };

    ghost coded = { coded_list (coded× (coded_list coded_ℕ) (coded_list (coded× stage_code (coded_list coded_ℕ)))) };

    ghost view = { λ f. f.facets.items };

    ghost size = { λ fs. pipes_size (pipes_of fs) };

    ghost use Rattle.std.proofs.Common.{arith};
    ghost use Rattle.stage_tree.specs.StageFalls.{facets_fall};

    ghost size_decreases = { λ a h. omega (arith, facets_fall a.facets.items) };
}

impl Placed {
    /// The stage, with the numbers of its written stages.
    pub fn new(stage: Stage, origins: Row<u32>) -> Placed
        ensures { result ≡ (stage_of stage, origins) }
    {
        Placed { stage, origins }
    }

    /// The stage.
    pub fn stage(&self) -> &Stage
        ensures { stage_of result.now ≡ self.now.0 }
    {
        &self.stage
    }

    /// The numbers of the written stages that it comes from.
    pub fn origins(&self) -> &Row<u32>
        ensures { result.now ≡ self.now.1 }
    {
        &self.origins
    }

    /// The stage and the numbers, moved out.
    pub fn into_parts(self) -> (Stage, Row<u32>)
        ensures { (stage_of result.0, result.1) ≡ self }
    {
        (self.stage, self.origins)
    }

    /// An equal stage.
    #[cycle(copy)]
    pub fn copy(&self, alloc: Global) -> Result<Placed, NoMemory>
        ensures { IfOk result (λ p. p ≡ self.now) }
    {
        let origins = self.origins.copy(alloc)?;
        let stage = self.stage.copy(alloc)?;
        Ok(Placed { stage, origins })
    }
}

impl Pipeline {
    /// A pipeline without stages.
    pub fn new(alloc: Global) -> Pipeline
        ensures { result ≡ [] }
    {
        Pipeline {
            stages: Vec::new(alloc),
        }
    }

    /// The number of stages.
    pub fn len(&self) -> usize
        ensures { result ≡ length self.now }
    {
        self.stages.len()
    }

    /// All stages, in order.
    pub fn stages(&self) -> &[Placed]
        ensures { result.now ≡ self.now }
    {
        self.stages.as_slice()
    }

    /// Appends the stage. A refusal changes nothing.
    pub fn add(&mut self, stage: Placed) -> Result<(), NoMemory>
        ensures ok { OnOk result (self.new ≡ self.old ++ stage ∷ []) }
        ensures err { OnErr result (self.new ≡ self.old) }
    {
        self.stages.push(stage)?;
        Ok(())
    }

    /// An equal pipeline. It calls itself once for each level of inner pipelines.
    #[cycle(copy)]
    pub fn copy(&self, alloc: Global) -> Result<Pipeline, NoMemory>
        ensures { IfOk result (λ p. p ≡ self.now) }
    {
        let mut stages = Vec::new(alloc);
        for stage in &self.stages {
            stages.push(stage.copy(alloc)?)?;
        }
        Ok(Pipeline { stages })
    }
}

impl Facets {
    /// No pipelines.
    pub fn new(alloc: Global) -> Facets
        ensures { result ≡ [] }
    {
        Facets {
            facets: Vec::new(alloc),
        }
    }

    /// The number of pipelines.
    pub fn len(&self) -> usize
        ensures { result ≡ length self.now }
    {
        self.facets.len()
    }

    /// All names with their pipelines, in order.
    pub fn facets(&self) -> &[(Name, Pipeline)]
        ensures { result.now ≡ self.now }
    {
        self.facets.as_slice()
    }

    /// Appends a pipeline. A refusal changes nothing.
    pub fn add(&mut self, name: Name, pipeline: Pipeline) -> Result<(), NoMemory>
        ensures ok { OnOk result (self.new ≡ self.old ++ (name, pipeline) ∷ []) }
        ensures err { OnErr result (self.new ≡ self.old) }
    {
        self.facets.push((name, pipeline))?;
        Ok(())
    }

    /// Equal pipelines.
    #[cycle(copy)]
    pub fn copy(&self, alloc: Global) -> Result<Facets, NoMemory>
        ensures { IfOk result (λ f. f ≡ self.now) }
    {
        let mut facets = Vec::new(alloc);
        for facet in &self.facets {
            facets.push((facet.0.copy(alloc)?, facet.1.copy(alloc)?))?;
        }
        Ok(Facets { facets })
    }
}

impl Stage {
    /// An equal stage.
    #[cycle(copy)]
    pub fn copy(&self, alloc: Global) -> Result<Stage, NoMemory>
        ensures { IfOk result (λ s. s ≡ self.now) }
    {
        match self {
            Stage::Keep(names) => Ok(Stage::Keep(names.copy(alloc)?)),
            Stage::Match(items) => Ok(Stage::Match(items.copy(alloc)?)),
            Stage::Project(project) => Ok(Stage::Project(project.copy(alloc)?)),
            Stage::AddFields(made) => Ok(Stage::AddFields(made.copy(alloc)?)),
            Stage::Unset(paths) => Ok(Stage::Unset(paths.copy(alloc)?)),
            Stage::ReplaceRoot(expr) => Ok(Stage::ReplaceRoot(expr.copy(alloc)?)),
            Stage::Unwind(unwind) => Ok(Stage::Unwind(unwind.copy(alloc)?)),
            Stage::Group(group) => Ok(Stage::Group(group.copy(alloc)?)),
            Stage::Sort(sort) => Ok(Stage::Sort(sort.copy(alloc)?)),
            Stage::Limit(n) => Ok(Stage::Limit(*n)),
            Stage::Skip(n) => Ok(Stage::Skip(*n)),
            Stage::Count(name) => Ok(Stage::Count(name.copy(alloc)?)),
            Stage::Lookup(lookup) => Ok(Stage::Lookup(lookup.copy(alloc)?)),
            Stage::GraphLookup(graph) => Ok(Stage::GraphLookup(graph.copy(alloc)?)),
            Stage::Facet(facets) => Ok(Stage::Facet(facets.copy(alloc)?)),
            Stage::Union(name, pipeline) => {
                Ok(Stage::Union(name.copy(alloc)?, pipeline.copy(alloc)?))
            }
            Stage::Window(window) => Ok(Stage::Window(window.copy(alloc)?)),
            Stage::Merge(merge) => Ok(Stage::Merge(merge.copy(alloc)?)),
        }
    }
}
