ghost use Rattle.std.specs.Prelude.{◌≡◌, option_map};
ghost use Rattle.chunk_map.specs.Owned.{collection_named};

use crate::Collection;
use std::marker::Model;

/// The routing table of a cluster file.
#[derive(Debug, Drop)]
pub struct Cluster {
    collections: Vec<Collection>,
}

impl Model for Cluster {
    ghost use Rattle.chunk_map.specs.Table.{Table};
    ghost use Rattle.chunk_map.specs.Code.{collection_code};
    ghost use Rattle.std.specs.Coded.{coded_list};

    ghost Value = { Table };

    ghost coded = { coded_list collection_code };

    ghost view = { λ c. c.collections.items };
}

impl Cluster {
    pub(crate) fn new(collections: Vec<Collection>) -> Cluster
        ensures { result ≡ collections.items }
    {
        Cluster { collections }
    }

    /// The collections as they are listed.
    pub fn collections(&self) -> &[Collection]
        ensures { result.now ≡ self.now }
    {
        self.collections.as_slice()
    }

    /// The collection of that name.
    pub fn collection(&self, name: &[u8]) -> Option<&Collection>
        ensures { option_map (λ c. c.now) result ≡ collection_named name.now self.now }
    {
        self.collections.iter().find(|c| c.name().bytes() == name)
    }
}
