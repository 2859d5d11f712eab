ghost use Rattle.std.specs.Prelude.{◌≡◌, ℕ, List, length, slice_get, Some};
ghost use Rattle.rules.specs.file_layout.TableStream.{Tables, tables_stream};
ghost use Rattle.file_laws.specs.written_tables.Written.{CanTables, TablesReadBack, StringsReadBack, BlobsReadBack, GuidsReadBack, UsersReadBack, Once};

/// Tables that can be laid out meet the demands on their head and counts, and read back (II.24.2.6).
pub fn tables()
    ensures { (sizes : ℕ) (tables : Tables) → CanTables sizes tables → TablesReadBack sizes tables (tables_stream sizes tables) }
{}

/// Heaps read back as their items (II.24.2.3 to II.24.2.5).
pub fn heaps()
    ensures strings { (texts : List (List ℕ)) → StringsReadBack texts }
    ensures blobs { (blobs : List (List ℕ)) → BlobsReadBack blobs }
    ensures guids { (guids : List (List ℕ)) → ((k : ℕ) (g : List ℕ) → slice_get guids k ≡ Some g → length g ≡ 16) → GuidsReadBack guids }
    ensures users { (texts : List (List ℕ)) → UsersReadBack texts }
{}

/// A list with each item once has the same items, and no two places with one of them.
pub fn each_once()
    ensures { (xs : List (List ℕ)) → Once xs }
{}
