ghost use Rattle.std.specs.Prelude.{◌≡◌, ◌∷◌, ◌++◌, [], map, IfOk};
ghost use Rattle.std.specs.Option.{option_map, option_zip};

use bson_value::{List, NoMemory};
use std::alloc::Global;
use std::marker::Model;

/// Arrays that operands are, borrowed.
#[derive(Drop)]
pub(crate) struct Arrays<'a> {
    lists: Vec<&'a List>,
}

impl<'a> Model for Arrays<'a> {
    ghost use Rattle.std.specs.Prelude.{List as Seq, map};
    ghost use Rattle.std.specs.Coded.{coded_list};
    ghost use Rattle.bson_value.specs.Tree.{Tree};
    ghost use Rattle.bson_value.specs.Code.{tree_code};

    ghost Value = { Seq (Seq Tree) };

    ghost coded = { coded_list (coded_list tree_code) };

    ghost view = { λ a. map (λ l. l.now) a.lists.items };
}

impl<'a> Arrays<'a> {
    pub(crate) fn new(alloc: Global) -> Arrays<'a>
        ensures { result ≡ [] }
    {
        Arrays {
            lists: Vec::new(alloc),
        }
    }

    pub(crate) fn lists(&self) -> &[&'a List]
        ensures { map (λ l. l.now) result.now ≡ self.now }
    {
        self.lists.as_slice()
    }

    fn with(self, list: &'a List) -> Result<Arrays<'a>, NoMemory>
        ensures { IfOk result (λ more. more ≡ self.entry ++ list.now ∷ []) }
    {
        let mut lists = self.lists;
        lists.push(list)?;
        Ok(Arrays { lists })
    }
}

/// The arrays so far with one more, where none of the operands was null or missing.
pub(crate) fn with_array<'a>(
    arrays: Option<Arrays<'a>>,
    array: Option<&'a List>,
) -> Result<Option<Arrays<'a>>, NoMemory>
    ensures { IfOk result (λ more. more ≡ option_map (λ p. p.0 ++ p.1 ∷ []) (option_zip arrays.entry (option_map (λ l. l.now) array.entry))) }
{
    match arrays {
        None => Ok(None),
        Some(arrays) => match array {
            None => Ok(None),
            Some(array) => Ok(Some(arrays.with(array)?)),
        },
    }
}
