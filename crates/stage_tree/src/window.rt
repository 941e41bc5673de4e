ghost use Rattle.std.specs.Prelude.{◌≡◌, IfOk};

use crate::edge::Edge;
use crate::row::Row;
use bson_value::{AccKind, NoMemory, Path, Value};
use expr_tree::Expr;
use std::alloc::Global;

/// A window function (the manual, `$setWindowFields`).
#[derive(Drop)]
pub enum WindowFn {
    /// An accumulator of the argument over the frame from one edge to the other.
    Acc(AccKind, Expr, Edge, Edge),
    /// `$rank`
    Rank,
    /// `$denseRank`
    DenseRank,
    /// `$documentNumber`
    Number,
    /// `$shift`: the value so many places further, or the default.
    Shift(Expr, i64, Value),
}

impl WindowFn {
    /// An equal function.
    pub fn copy(&self, alloc: Global) -> Result<WindowFn, NoMemory>
        ensures { IfOk result (λ f. f ≡ self.now) }
    {
        match self {
            WindowFn::Acc(kind, argument, low, high) => {
                Ok(WindowFn::Acc(*kind, argument.copy(alloc)?, *low, *high))
            }
            WindowFn::Rank => Ok(WindowFn::Rank),
            WindowFn::DenseRank => Ok(WindowFn::DenseRank),
            WindowFn::Number => Ok(WindowFn::Number),
            WindowFn::Shift(output, by, default) => Ok(WindowFn::Shift(
                output.copy(alloc)?,
                *by,
                default.copy(alloc)?,
            )),
        }
    }
}

/// `$setWindowFields` (the manual, `$setWindowFields`).
#[derive(Drop)]
pub struct Window {
    /// `partitionBy`
    pub partition: Expr,
    /// `sortBy`: the paths, each with true for falling order.
    pub keys: Row<(Path, bool)>,
    /// `output`: the paths that are set, each with its function.
    pub outputs: Row<(Path, WindowFn)>,
}

impl Window {
    /// An equal stage.
    pub fn copy(&self, alloc: Global) -> Result<Window, NoMemory>
        ensures { IfOk result (λ w. w ≡ self.now) }
    {
        Ok(Window {
            partition: self.partition.copy(alloc)?,
            keys: self.keys.copy(alloc)?,
            outputs: self.outputs.copy(alloc)?,
        })
    }
}
