ghost use Rattle.std.specs.Prelude.{◌≡◌};

use bson_value::Text;
use std::marker::Model;

/// A shard of a collection: its name, and the name of the file that has its records.
#[derive(Debug, Drop)]
pub struct Shard {
    name: Text,
    file: Text,
}

impl Model for Shard {
    ghost use Rattle.chunk_map.specs.Table.{ShardRow};

    ghost Value = { ShardRow };

    ghost view = { λ s. record { name = s.name; file = s.file } };
}

impl Shard {
    pub(crate) fn new(name: Text, file: Text) -> Shard
        ensures { result ≡ record { name = name; file = file } }
    {
        Shard { name, file }
    }

    /// Its name.
    pub fn name(&self) -> &Text
        ensures { result.now ≡ self.now.name }
    {
        &self.name
    }

    /// The name of its file.
    pub fn file(&self) -> &Text
        ensures { result.now ≡ self.now.file }
    {
        &self.file
    }
}
