//! Which pipelines the limits refuse, and at which stage. Each function here does nothing: it is its contract.

ghost use Rattle.std.specs.Prelude.{◌≡◌, ℕ, ◌≤◌, ◌<◌, ◌↔◌, Some, None, List as Seq};
ghost use Rattle.std.specs.List.{All};
ghost use Rattle.stage_tree.specs.Stage.{StageNode, stages_of};
ghost use Rattle.stage_tree.specs.declared.command.CommandWhy.TheVariants.{Stages as TooMany, StaticDepth};
ghost use Rattle.pipeline_limits.specs.Limits.{stages_in, first_passing, refused_at, past_limits};
ghost use Rattle.stage_laws.specs.Bounds.{bounds, IsFirstTooDeep};

/// The stage that is found is the first behind which the bound passes 1,000, or within which a bound behind a stage
/// does; none is found exactly where all bounds keep to that.
pub fn first_too_deep_is()
    ensures found { (items : Seq (StageNode × Seq ℕ)) (n : ℕ) → (first_passing 1 100 (stages_of items) ≡ Some n) ↔ IsFirstTooDeep items n }
    ensures none { (items : Seq (StageNode × Seq ℕ)) → (first_passing 1 100 (stages_of items) ≡ None) ↔ All (λ n. n ≤ 1000) (bounds (stages_of items) 100) }
{}

/// A pipeline is refused for its depth at a stage exactly where it has at most 100 stages and this is the first that
/// goes too deep, and for their number exactly where there are more; none is refused otherwise.
pub fn refused_past_limits()
    ensures deep { (items : Seq (StageNode × Seq ℕ)) (n : ℕ) →
        (past_limits (stages_of items) ≡ Some (refused_at n StaticDepth)) ↔ ((stages_in (stages_of items) ≤ 100) × IsFirstTooDeep items n) }
    ensures many { (items : Seq (StageNode × Seq ℕ)) → (past_limits (stages_of items) ≡ Some (refused_at 0 TooMany)) ↔ (100 < stages_in (stages_of items)) }
    ensures none { (items : Seq (StageNode × Seq ℕ)) →
        (past_limits (stages_of items) ≡ None) ↔ ((stages_in (stages_of items) ≤ 100) × All (λ n. n ≤ 1000) (bounds (stages_of items) 100)) }
{}
