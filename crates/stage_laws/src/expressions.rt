//! What the values of several expressions, `$map` and `$filter` give. Each function here does nothing: it is its
//! contract.

ghost use Rattle.std.specs.Prelude.{◌≡◌, ◌↔◌, [], List as Seq, map, filter, Option as Maybe, Ok, Err};
ghost use Rattle.bson_value.specs.Operands.{Outcome, or_null};
ghost use Rattle.bson_value.specs.Tree.{Tree};
ghost use Rattle.bson_value.specs.declared.eval_code.EvalCode.{EvalCode};
ghost use Rattle.expr_tree.specs.Env.{Env};
ghost use Rattle.expr_tree.specs.Rows.{Meaning, all_from, mapped, filtered};
ghost use Rattle.stage_laws.specs.Outcomes.{AllGive, IsFirstCode, keeps};

/// Several expressions give the list of their values where each gives one, else the first code from the left.
pub fn values_in_order()
    ensures values { (ms : Seq Meaning) (env : Env) (vs : Seq (Maybe Tree)) → (all_from [] ms env ≡ Ok vs) ↔ AllGive (map (λ m. m env) ms) vs }
    ensures code { (ms : Seq Meaning) (env : Env) (c : EvalCode) → (all_from [] ms env ≡ Err c) ↔ IsFirstCode (map (λ m. m env) ms) c }
{}

/// `$map` gives the values of all elements in their order, missing ones as null, where each gives one, else the first
/// code from the left.
pub fn mapped_in_order()
    ensures values { (go : Tree → Outcome) (ts us : Seq Tree) →
        (mapped go [] ts ≡ Ok us) ↔ ((vs : Seq (Maybe Tree)) × AllGive (map go ts) vs × (map or_null vs ≡ us)) }
    ensures code { (go : Tree → Outcome) (ts : Seq Tree) (c : EvalCode) → (mapped go [] ts ≡ Err c) ↔ IsFirstCode (map go ts) c }
{}

/// `$filter` gives the elements whose condition counts as true, in their order, where each condition gives a value,
/// else the first code from the left.
pub fn filtered_in_order()
    ensures values { (go : Tree → Outcome) (ts us : Seq Tree) →
        (filtered go [] ts ≡ Ok us) ↔ ((vs : Seq (Maybe Tree)) × AllGive (map go ts) vs × (filter (λ t. keeps (go t)) ts ≡ us)) }
    ensures code { (go : Tree → Outcome) (ts : Seq Tree) (c : EvalCode) → (filtered go [] ts ≡ Err c) ↔ IsFirstCode (map go ts) c }
{}
