//! Stages that hold no pipelines, by their names.

ghost use Rattle.std.specs.Prelude.{◌≡◌};
ghost use Rattle.bson_value.specs.View.{tree_of};
ghost use Rattle.expr_read.specs.Reads.{Reads};
ghost use Rattle.stage_tree.specs.StageView.{stage_of};
ghost use Rattle.stage_read.specs.Kinds.{is_joining, kind_reading};

use bson_value::Value;
use expr_read::FormError;
use join_forms::read_joining_stage;
use stage_forms::read_plain_stage;
use stage_tree::Stage;
use std::alloc::Global;

fn is_joining(name: &[u8]) -> bool
    ensures { result ≡ is_joining name.now }
{
    name == b"$lookup".as_slice()
        || name == b"$graphLookup".as_slice()
        || name == b"$group".as_slice()
        || name == b"$setWindowFields".as_slice()
        || name == b"$merge".as_slice()
}

/// The stage of that name over the value, from the written stage of that number.
#[tactic(auto, unfolding(crate::specs::Kinds::kind_reading))]
pub fn read_kind(alloc: Global, number: u32, name: &[u8], value: &Value) -> Result<Stage, FormError>
    ensures { Reads stage_of result (kind_reading number name.now (tree_of value.now)) }
{
    if is_joining(name) {
        read_joining_stage(alloc, name, value)
    } else {
        read_plain_stage(alloc, number, name, value)
    }
}
