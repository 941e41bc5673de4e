//! The frame of a window.

ghost use Rattle.std.specs.Prelude.{◌≡◌};
ghost use Rattle.std.specs.Option.{option_map};
ghost use Rattle.bson_value.specs.View.{tree_of};
ghost use Rattle.join_forms.specs.Reading.{edge_named, edge, two_items, edges, edges_in, documents_frame, frame};
ghost use Rattle.join_forms.specs.Views.{frame_of};
ghost use Rattle.join_forms.specs.Written.{in_order};
ghost use Rattle.stage_tree.specs.StageView.{edge_of};

use crate::fields::one_field;
use bson_value::{List, Value};
use stage_parts::{doc_in, list_in, text_in, whole_in};
use stage_tree::Edge;

/// A frame: its lower and its upper edge.
pub type Frame = (Edge, Edge);

fn edge_named(name: &[u8]) -> Option<Edge>
    ensures { option_map edge_of result ≡ edge_named name.now }
{
    if name == b"current".as_slice() {
        Some(Edge::At(0))
    } else if name == b"unbounded".as_slice() {
        Some(Edge::Unbounded)
    } else {
        None
    }
}

fn edge_in(value: &Value) -> Option<Edge>
    ensures { option_map edge_of result ≡ edge (tree_of value.now) }
{
    match whole_in(value) {
        Some(n) => Some(Edge::At(n)),
        None => match text_in(value) {
            Some(text) => edge_named(text.bytes()),
            None => None,
        },
    }
}

fn in_order(low: Edge, high: Edge) -> bool
    ensures { result ≡ in_order (edge_of low) (edge_of high) }
{
    match low {
        Edge::At(low) => match high {
            Edge::At(high) => low <= high,
            Edge::Unbounded => true,
        },
        Edge::Unbounded => true,
    }
}

fn two_items(list: &List) -> Option<(&Value, &Value)>
    ensures { option_map (λ p. (tree_of p.0.now, tree_of p.1.now)) result ≡ two_items list.now }
{
    if list.len() == 2 {
        Some((list.value(0), list.value(1)))
    } else {
        None
    }
}

fn edges(low: &Value, high: &Value) -> Option<Frame>
    ensures { option_map frame_of result ≡ edges (tree_of low.now) (tree_of high.now) }
{
    let low = edge_in(low)?;
    let high = edge_in(high)?;
    if in_order(low, high) {
        Some((low, high))
    } else {
        None
    }
}

fn edges_in(list: &List) -> Option<Frame>
    ensures { option_map frame_of result ≡ edges_in list.now }
{
    match two_items(list) {
        Some((low, high)) => edges(low, high),
        None => None,
    }
}

fn documents_frame(name: &[u8], value: &Value) -> Option<Frame>
    ensures { option_map frame_of result ≡ documents_frame (name.now, tree_of value.now) }
{
    if name != b"documents".as_slice() {
        return None;
    }
    match list_in(value) {
        Some(list) => edges_in(list),
        None => None,
    }
}

/// The frame that a `window` is: a document with `documents`, whose value is an array of two edges, the lower one not
/// behind the upper one.
pub fn frame_in(value: &Value) -> Option<Frame>
    ensures { option_map frame_of result ≡ frame (tree_of value.now) }
{
    match doc_in(value) {
        Some(doc) => match one_field(doc) {
            Some((name, value)) => documents_frame(name, value),
            None => None,
        },
        None => None,
    }
}
