//! Which number a text spells (the manual, `$toString` and `$toLong`).

ghost use Rattle.std.specs.Prelude.{◌≡◌, ℤ, true, Some};
ghost use Rattle.std.specs.Fmt.{signed_decimal};
ghost use Rattle.bson_value.specs.Operands.{is_int64};
ghost use Rattle.bson_value.specs.ConversionRows.{spelled};

/// The text of a number of 64 bits spells the number.
pub fn shown_number_is_spelled()
    ensures { (n : ℤ) → is_int64 n ≡ true → spelled (signed_decimal n) ≡ Some n }
{}
