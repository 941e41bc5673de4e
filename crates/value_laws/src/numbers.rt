//! Which number comes of a product (the manual, `$multiply`).

ghost use Rattle.std.specs.Prelude.{◌≡◌, ℕ, ◌≤◌, ℤ, pos, ◌*ℤ◌, true, false, List as Seq, fold, take, length, Ok, Err};
ghost use Rattle.bson_value.specs.declared.eval_code.EvalCode.TheVariants.{Overflow};
ghost use Rattle.bson_value.specs.Operands.{is_int64};
ghost use Rattle.bson_value.specs.NumberRows.{times};

/// Numbers are multiplied to their product where the products of the first of them all fit 64 bits.
pub fn product_in_64_bits()
    ensures { (numbers : Seq ℤ) → ((k : ℕ) → k ≤ length numbers → is_int64 (fold ◌*ℤ◌ (pos 1) (take k numbers)) ≡ true) →
        fold times (Ok (pos 1)) numbers ≡ Ok (fold ◌*ℤ◌ (pos 1) numbers) }
{}

/// Where one of those products doesn't, they overflow.
pub fn product_overflows()
    ensures { (numbers : Seq ℤ) (k : ℕ) → is_int64 (fold ◌*ℤ◌ (pos 1) (take k numbers)) ≡ false → fold times (Ok (pos 1)) numbers ≡ Err Overflow }
{}
