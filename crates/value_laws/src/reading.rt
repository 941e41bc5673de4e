//! What the leftmost fault of bytes that spell no document is (BSON 1.1). Each function here does nothing: it is its
//! contract.

ghost use Rattle.std.specs.Prelude.{◌≡◌, ◌≢◌, ◌⊎◌, ◌↔◌, ◌≤◌, ℕ, Err, length, take, List as Seq};
ghost use Rattle.bson_value.specs.Proper.{AreBytes};
ghost use Rattle.bson_value.specs.declared.bad.BadBson.{BadBson};
ghost use Rattle.bson_value.specs.declared.bad.BadWhy.TheVariants.{Truncated};
ghost use Rattle.bson_codec.specs.Reading.{read_at};
ghost use Rattle.bson_codec.specs.Records.{Document};
ghost use Rattle.bson_codec.specs.Spelling.{IsSpelledAt};
ghost use Rattle.value_laws.specs.Faults.{Fault, IsFirstFault};

/// The fault that reading gives is the first: what stands before it is well spelled, and it is what is wrong there.
pub fn leftmost_fault()
    ensures { (start : ℕ) (bytes : Seq ℕ) (b : BadBson) → AreBytes bytes → (read_at start bytes ≡ Err b) ↔ ((f : Fault) × (f.bad ≡ b) × IsFirstFault start bytes f) }
{}

/// At each place of a file a document is spelled, or there is a first fault, and never both, nor two such faults.
pub fn fault_or_document()
    ensures either { (start : ℕ) (bytes : Seq ℕ) → AreBytes bytes → start ≤ length bytes →
        ((d : Document) × (end : ℕ) × IsSpelledAt bytes start d end) ⊎ ((f : Fault) × IsFirstFault start bytes f) }
    ensures never_both { (start : ℕ) (bytes : Seq ℕ) (d : Document) (end : ℕ) (f : Fault) → IsSpelledAt bytes start d end → ¬ IsFirstFault start bytes f }
    ensures only_one { (start : ℕ) (bytes : Seq ℕ) (f g : Fault) → IsFirstFault start bytes f → IsFirstFault start bytes g → f.bad ≡ g.bad }
{}

/// The first fault lies in the file, and the bytes up to where it is shown tell it: another file as long that has these
/// bytes has the same fault, and so has a longer one, but where the file ended too early.
pub fn fault_is_first()
    ensures within { (start : ℕ) (bytes : Seq ℕ) (f : Fault) → start ≤ length bytes → IsFirstFault start bytes f →
        (start ≤ f.bad.at) × (f.bad.at ≤ f.shown) × (f.shown ≤ length bytes) }
    ensures same { (start : ℕ) (bytes other : Seq ℕ) (f : Fault) → IsFirstFault start bytes f →
        length other ≡ length bytes → take f.shown other ≡ take f.shown bytes → IsFirstFault start other f }
    ensures longer { (start : ℕ) (bytes other : Seq ℕ) (f : Fault) → start ≤ length bytes → IsFirstFault start bytes f → f.bad.why ≢ Truncated →
        length bytes ≤ length other → take f.shown other ≡ take f.shown bytes → IsFirstFault start other f }
{}
