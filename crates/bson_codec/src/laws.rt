//! What holds of files of documents, whoever reads them. Each function here does nothing: it is its contract.

ghost use Rattle.std.specs.Prelude.{◌≡◌, ◌↔◌, ◌++◌, Ok, Err, ℕ, List as Seq};
ghost use Rattle.bson_value.specs.Proper.{IsDoc};
ghost use Rattle.bson_codec.specs.Spelling.{spelling, IsShort, IsSpelledAt};
ghost use Rattle.bson_codec.specs.Records.{Document, BadRecord, records, AreRecords, IsFirstBad, FileFault, document_of, IsSpelling, IsFileFault};

/// What the records of a file are: the documents whose spellings, joined, are the file's bytes, or the first bad
/// record, behind such documents, with the leftmost fault of a rest that no spelling begins.
pub fn records_are(bytes: &[u8])
    ensures good { (ds : Seq Document) → (records bytes.now ≡ Ok ds) ↔ AreRecords bytes.now ds }
    ensures bad { (b : BadRecord) → (records bytes.now ≡ Err b) ↔ IsFirstBad bytes.now b }
{
    let _bytes = bytes;
}

/// What the one document of a file is: the one whose spelling the file's bytes are. Else a longer file begins with
/// a spelling, or none of its fronts is one.
pub fn document_is(bytes: &[u8])
    ensures good { (d : Document) → (document_of bytes.now ≡ Ok d) ↔ IsSpelling bytes.now d }
    ensures bad { (f : FileFault) → (document_of bytes.now ≡ Err f) ↔ IsFileFault bytes.now f }
{
    let _bytes = bytes;
}

/// No spelling is the beginning of another: at each place one document at most is spelled, up to one end.
pub fn spelled_once()
    ensures at_a_place { (bytes : Seq ℕ) (at : ℕ) (d e : Document) (m n : ℕ) → IsSpelledAt bytes at d m → IsSpelledAt bytes at e n → (d ≡ e) × (m ≡ n) }
    ensures no_prefix { (d e : Document) (rest : Seq ℕ) → IsDoc d → IsShort d → IsDoc e → IsShort e → spelling d ≡ spelling e ++ rest → d ≡ e }
{}
