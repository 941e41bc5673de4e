//! What a survey of a collection's files finds. Each function here does nothing: it is its contract.

ghost use Rattle.std.specs.Prelude.{◌≡◌, ℕ, ◌-◌, ◌^◌, ◌<◌, ◌↔◌, length, map, Ok, Err, Some, None, Option as Maybe, IfSome, IsSomeAnd, List as Seq};
ghost use Rattle.std.specs.List.{All};
ghost use Rattle.bson_value.specs.Paths.{Steps, plain};
ghost use Rattle.bson_value.specs.Proper.{AreBytes};
ghost use Rattle.bson_value.specs.Tree.{Tree, doc, pairs_of};
ghost use Rattle.bson_codec.specs.Records.{Document};
ghost use Rattle.chunk_map.specs.Keys.{key_of, part_value};
ghost use Rattle.chunk_map.specs.Owned.{Files};
ghost use Rattle.chunk_map.specs.Table.{ShardRow, CollectionRow};
ghost use Rattle.orphan_filter.specs.Survey.{ArrayRecord, first_array, whole_records, file_verdict, surveyed};
ghost use Rattle.orphan_filter.specs.declared.errors.SurveyError.{SurveyError};
ghost use Rattle.orphan_filter.specs.declared.errors.SurveyError.TheVariants.{NoFile, FileTooLong};
ghost use Rattle.stage_laws.specs.Surveys.{MeetsNone, MeetsIn, AreWholeRecords, IsFirstArray, IsGood, IsRefused, AreFiles, IsFirstRefused};

/// A document's key has the values at its paths, with missing ones as null, where none of them meets an array, and else
/// tells the first part that does.
pub fn key_is()
    ensures values { (paths : Seq Steps) (d : Document) (key : Seq Tree) →
        (key_of paths d ≡ Ok key) ↔ (MeetsNone paths d × (map (λ path. part_value (plain path (doc (pairs_of d)))) paths ≡ key)) }
    ensures array { (paths : Seq Steps) (d : Document) (part : ℕ) → (key_of paths d ≡ Err part) ↔ MeetsIn paths d part }
{}

/// The record that is found is the first whose key meets an array; none is found exactly where no key meets one.
pub fn first_array_is()
    ensures found { (paths : Seq Steps) (ds : Seq Document) (a : ArrayRecord) → (first_array paths ds ≡ Some a) ↔ IsFirstArray paths ds a }
    ensures none { (paths : Seq Steps) (ds : Seq Document) → (first_array paths ds ≡ None) ↔ All (MeetsNone paths) ds }
{}

/// The records of a file before the first bad one are the documents that are spelled from its begin on, up to where none
/// is spelled.
pub fn whole_records_are()
    ensures { (bytes : Seq ℕ) (ds : Seq Document) → AreBytes bytes → (whole_records bytes ≡ ds) ↔ AreWholeRecords bytes ds }
{}

/// A shard's file is found good exactly where it is held, has at most 4,294,967,295 bytes, is the spellings of documents
/// joined, and none's key meets an array. It is refused as absent exactly where it isn't held, as too long exactly where
/// it is held and longer, and for a key or a bad record exactly where it is held, no longer, and begins with good records
/// and then with that one.
pub fn file_is_surveyed()
    ensures absent { (c : CollectionRow) (s : ShardRow) (held : Maybe (Seq ℕ)) (name : Seq ℕ) → (file_verdict c s held ≡ Err (NoFile name)) ↔ ((held ≡ None) × (s.file ≡ name)) }
    ensures long { (c : CollectionRow) (s : ShardRow) (held : Maybe (Seq ℕ)) (name : Seq ℕ) (len : ℕ) →
        (file_verdict c s held ≡ Err (FileTooLong name len)) ↔ IsSomeAnd held (λ bytes. (2 ^ 32 - 1 < length bytes) × (s.file ≡ name) × (length bytes ≡ len)) }
    ensures good { (c : CollectionRow) (s : ShardRow) (held : Maybe (Seq ℕ)) → IfSome held AreBytes → (file_verdict c s held ≡ Ok tt) ↔ IsGood c.key_paths held }
    ensures refused { (c : CollectionRow) (s : ShardRow) (held : Maybe (Seq ℕ)) (e : SurveyError) → IfSome held AreBytes → (file_verdict c s held ≡ Err e) ↔ IsRefused c s held e }
{}

/// A collection is found good exactly where the file of each of its shards is, and refused exactly where the files of
/// its first shards are good and that of the next is refused so.
pub fn collection_is_surveyed()
    ensures good { (files : Files) (c : CollectionRow) → AreFiles files → (surveyed files c ≡ Ok tt) ↔ All (λ s. IsGood c.key_paths (files s.file)) c.shards }
    ensures refused { (files : Files) (c : CollectionRow) (e : SurveyError) → AreFiles files → (surveyed files c ≡ Err e) ↔ IsFirstRefused files c e }
{}
