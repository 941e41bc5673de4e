use crate::eval_code::EvalCode;
use crate::no_memory::NoMemory;
use std::alloc::{AllocError, AllocFailed};

/// Why a value was not computed.
#[derive(Clone, Copy, Debug, PartialEq, Eq)]
pub enum EvalError {
    /// The value has none by the definition of its expression.
    Code(EvalCode),
    /// Memory was refused.
    Memory,
}

impl From<EvalCode> for EvalError {
    ghost use Rattle.std.specs.Prelude.{◌≡◌};
    ghost use Rattle.bson_value.specs.declared.errors.EvalError.TheVariants.{Code};

    ghost from_gives = { λ code e. e ≡ Code code };

    fn from(code: EvalCode) -> EvalError {
        EvalError::Code(code)
    }
}

impl From<NoMemory> for EvalError {
    ghost use Rattle.std.specs.Prelude.{◌≡◌};
    ghost use Rattle.bson_value.specs.declared.errors.EvalError.TheVariants.{Memory};

    ghost from_gives = { λ _ e. e ≡ Memory };

    fn from(_e: NoMemory) -> EvalError {
        EvalError::Memory
    }
}

impl From<AllocError> for EvalError {
    ghost use Rattle.std.specs.Prelude.{◌≡◌};
    ghost use Rattle.bson_value.specs.declared.errors.EvalError.TheVariants.{Memory};

    ghost from_gives = { λ _ e. e ≡ Memory };

    fn from(_e: AllocError) -> EvalError {
        EvalError::Memory
    }
}

impl<T: Drop> From<AllocFailed<T>> for EvalError {
    ghost use Rattle.std.specs.Prelude.{◌≡◌};
    ghost use Rattle.bson_value.specs.declared.errors.EvalError.TheVariants.{Memory};

    ghost from_gives = { λ _ e. e ≡ Memory };

    fn from(_e: AllocFailed<T>) -> EvalError {
        EvalError::Memory
    }
}

/// An evaluation error: the written stage, counted from 1, and its code.
#[derive(Clone, Copy, Debug, PartialEq, Eq)]
pub struct Failure {
    /// The stage, counted from 1 as it was written.
    pub stage: u32,
    /// What went wrong.
    pub code: EvalCode,
}
