ghost use Rattle.std.specs.Prelude.{◌≡◌, ◌↔◌, ◌≤◌, ◌^◌, ℕ, List, false, IsTrue};
ghost use Rattle.il_base.specs.blob_grammar.Laws.{AreBytes};
ghost use Rattle.il_base.specs.declared.world_model.record.AsmRec.{AsmRec};
ghost use Rattle.il_base.specs.world_model.Records.{IsRecord, AreRuns};
ghost use Rattle.rules.specs.record_format.Record.{HasRecord};
ghost use Rattle.rules.specs.file_layout.Runs.{runs_fit, runs_have_spelling, BeginsAfterAll};

/// A file's record has tokens that name rows, runs that follow one another, and sorted tables in order (II.22).
pub fn file_has_record()
    ensures { (bs : List ℕ) (rec : AsmRec) → HasRecord bs rec → IsRecord rec }
{}

/// Of runs that follow one another one has no spelling exactly where it begins after the last of exactly 65535 rows
/// (II.24.2.6).
pub fn runs_without_spelling<A>()
    ensures { (count : ℕ) (first end : A → ℕ) (rows : List A) → AreRuns count first end rows → count ≤ 2 ^ 20 → (runs_fit count first rows ≡ false) ↔ BeginsAfterAll count first rows }
{}

/// The runs of a file's record have a spelling (II.24.2.6).
pub fn runs_with_spelling()
    ensures { (bs : List ℕ) (rec : AsmRec) → AreBytes bs → HasRecord bs rec → IsTrue (runs_have_spelling rec) }
{}
