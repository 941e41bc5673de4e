//! Stages by their names.

ghost use Rattle.std.specs.Prelude.{◌≡◌, IfOk, Err};
ghost use Rattle.bson_value.specs.View.{tree_of};
ghost use Rattle.expr_read.specs.Reads.{Reads};
ghost use Rattle.join_forms.specs.Reading.{joining_stage_reading};
ghost use Rattle.join_forms.specs.Written.{SpellsJoiningStage};
ghost use Rattle.stage_tree.specs.Stage.{StageNode};
ghost use Rattle.stage_tree.specs.StageView.{stage_of};

use crate::graph_lookup::read_graph_lookup;
use crate::group::read_group;
use crate::lookup::read_lookup;
use crate::merge::read_merge;
use crate::window::read_window;
use bson_value::Value;
use expr_read::FormError;
use stage_tree::Stage;
use std::alloc::Global;

fn read_named(alloc: Global, name: &[u8], value: &Value) -> Result<Stage, FormError>
    ensures { Reads stage_of result (joining_stage_reading name.now (tree_of value.now)) }
{
    if name == b"$lookup".as_slice() {
        read_lookup(alloc, value)
    } else if name == b"$group".as_slice() {
        read_group(alloc, value)
    } else if name == b"$merge".as_slice() {
        read_merge(alloc, value)
    } else if name == b"$graphLookup".as_slice() {
        read_graph_lookup(alloc, value)
    } else if name == b"$setWindowFields".as_slice() {
        read_window(alloc, value)
    } else {
        Err(FormError::Form)
    }
}

/// The stage that groups, joins or merges documents and that is written as the document `{name: value}` (the manual:
/// `$group`, `$lookup`, `$graphLookup`, `$setWindowFields`, `$merge`). It is refused as `Form` exactly where the two
/// spell no such stage; the name of another stage is refused too.
pub fn read_joining_stage(alloc: Global, name: &[u8], value: &Value) -> Result<Stage, FormError>
    ensures found { IfOk result (λ s. SpellsJoiningStage name.now (tree_of value.now) (stage_of s)) }
    ensures refused { result ≡ Err FormError.Form → (s : StageNode) → ¬ SpellsJoiningStage name.now (tree_of value.now) s }
    ensures read { Reads stage_of result (joining_stage_reading name.now (tree_of value.now)) }
{
    read_named(alloc, name, value)
}
