ghost use Rattle.std.specs.Prelude.{◌≡◌};
ghost use Rattle.std.specs.Option.{option_map};
ghost use Rattle.bson_value.specs.View.{tree_of};
ghost use Rattle.bson_value.specs.Tree.{doc as a_doc, pairs_of};
ghost use Rattle.bson_value.specs.Paths.{plain as plainly, field_plain};

use bson_value::{Doc, Name, Path, Value};

/// The value on the path's way through documents alone, borrowed. None where a step has no field, or stands at a
/// value that is no document.
pub fn plain<'a>(doc: &'a Doc, path: &Path) -> Option<&'a Value>
    ensures { option_map (λ v. tree_of v.now) result ≡ plainly path.now (a_doc (pairs_of doc.now)) }
{
    path.known();
    match path.steps() {
        [] => None, // a path has a step
        [step, rest @ ..] => plain_field(doc, step, rest),
    }
}

#[cycle(plain)]
fn plain_field<'a>(doc: &'a Doc, step: &Name, rest: &[Name]) -> Option<&'a Value>
    ensures { option_map (λ v. tree_of v.now) result ≡ field_plain step.now rest.now doc.now }
{
    match doc.get(step.bytes()) {
        Some(value) => plain_in(value, rest),
        None => None,
    }
}

#[cycle(plain)]
fn plain_in<'a>(value: &'a Value, steps: &[Name]) -> Option<&'a Value>
    ensures { option_map (λ v. tree_of v.now) result ≡ plainly steps.now (tree_of value.now) }
{
    match steps {
        [] => Some(value),
        [step, rest @ ..] => match value {
            Value::Doc(doc) => plain_field(doc, step, rest),
            _ => None,
        },
    }
}
