//! What a row of operators makes of any number of operands, whatever their kind (the manual, Aggregation Operators): each is
//! read as a code, as none, where it is null or missing, or as what it holds.

ghost use Rattle.std.specs.Prelude.{◌≡◌, List as Seq, ◌∷◌, ◌++◌, map, Option as Maybe, Ok, Err, Some, None};
ghost use Rattle.bson_value.specs.declared.eval_code.EvalCode.{EvalCode};
ghost use Rattle.bson_value.specs.Operands.{Operand, all};

/// The first code from the left stands.
pub fn first_code_stands<T>()
    ensures { (before : Seq (Maybe T)) (c : EvalCode) (after : Seq (Operand T)) → all (map Ok before ++ Err c ∷ after) ≡ Err c }
{}

/// Without a code, they are none where one of them is.
pub fn none_stands<T>()
    ensures { (before after : Seq (Maybe T)) → all (map Ok (before ++ None ∷ after)) ≡ Ok None }
{}

/// Else they are what they hold.
pub fn all_are_held<T>()
    ensures { (held : Seq T) → all (map (λ x. Ok (Some x)) held) ≡ Ok (Some held) }
{}
