use bson_value::NoMemory;

/// Why there is no expression.
#[derive(Clone, Copy, Debug, PartialEq, Eq)]
pub enum FormError {
    /// The value spells none.
    Form,
    /// Memory was refused.
    Memory,
}

impl From<NoMemory> for FormError {
    ghost use Rattle.std.specs.Prelude.{◌≡◌};
    ghost use Rattle.expr_read.specs.declared.errors.FormError.TheVariants.{Memory};

    ghost from_gives = { λ _ e. e ≡ Memory };

    fn from(_e: NoMemory) -> FormError {
        FormError::Memory
    }
}
