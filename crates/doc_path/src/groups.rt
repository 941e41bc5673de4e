ghost use Rattle.std.specs.Prelude.{◌≡◌, ℕ, ◌∷◌, ◌++◌, [], List as Seq, IfOk, OnOk};
ghost use Rattle.std.specs.Option.{option_map_or};
ghost use Rattle.bson_value.specs.Paths.{behind, rest_behind, kept};
ghost use Rattle.doc_path.specs.Kept.{steps_in, rests_in};

use bson_value::{Name, NoMemory};
use std::alloc::Global;
use std::collections::BTreeMap;

/// What follows each first step in a list of paths, in the order of the paths.
pub(crate) type Groups<'a> = BTreeMap<&'a [u8], Vec<&'a [Name]>>;

/// The paths by their first step.
pub(crate) fn group<'a>(alloc: Global, paths: &[&'a [Name]]) -> Result<Groups<'a>, NoMemory>
    ensures { IfOk result (λ m. (n : Seq ℕ) → rests_in m n ≡ behind n (steps_in paths.now)) }
{
    let mut groups = BTreeMap::new(alloc);
    for path in paths {
        add_path(alloc, &mut groups, path)?;
    }
    Ok(groups)
}

fn add_path<'a>(alloc: Global, groups: &mut Groups<'a>, path: &'a [Name]) -> Result<(), NoMemory>
    ensures { OnOk result ((n : Seq ℕ) → rests_in groups.new n ≡ rests_in groups.old n ++ kept (rest_behind n path.now) []) }
{
    match path {
        [] => Ok(()),
        [step, rest @ ..] => add_rest(alloc, groups, step.bytes(), rest),
    }
}

fn add_rest<'a>(
    alloc: Global,
    groups: &mut Groups<'a>,
    step: &'a [u8],
    rest: &'a [Name],
) -> Result<(), NoMemory>
    ensures { OnOk result ((n : Seq ℕ) → rests_in groups.new n ≡ rests_in groups.old n ++ kept (rest_behind n (step.now ∷ rest.now)) []) }
{
    let mut rests = rests_so_far(alloc, groups.remove(step));
    rests.push(rest)?;
    groups.insert(step, rests)?;
    Ok(())
}

fn rests_so_far<'a>(alloc: Global, rests: Option<Vec<&'a [Name]>>) -> Vec<&'a [Name]>
    ensures { steps_in result.items ≡ option_map_or (λ v. steps_in v.items) rests.entry [] }
{
    match rests {
        Some(rests) => rests,
        None => Vec::new(alloc),
    }
}
