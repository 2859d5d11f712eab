//! Laws on the demands that a file meets: functions without code, whose contracts state them.

ghost use Rattle.std.specs.Prelude.{◌≡◌, ℕ, ◌+◌, ◌<◌, ◌≤◌, ◌↔◌, List, ◌∷◌, ◌++◌, length, true, false, Some, None};
ghost use Rattle.std.specs.List.{AllByRecursion};
ghost use Rattle.il_base.specs.cli_format.Demand.{Demand, first_fault};
ghost use Rattle.il_base.specs.cli_format.Columns.{columns_of, sort_key_of};
ghost use Rattle.il_base.specs.cli_format.Tables.{rows_of, cell_number, column_of};
ghost use Rattle.il_base.specs.cli_format.Metadata.{tables_demands, tables_stream, names_item, is_run, in_order, most_rows};

/// There is no first fault exactly where each demand holds.
pub fn no_fault<E>()
    ensures { (ds : List (Demand E)) → (first_fault ds ≡ None) ↔ AllByRecursion (λ d. d.holds ≡ true) ds }
{}

/// The first fault is the refusal of a demand that doesn't hold, where each demand before it holds.
pub fn fault_is_first<E>()
    ensures { (ds : List (Demand E)) (e : E) → first_fault ds ≡ Some e → (before : List (Demand E)) × (d : Demand E) × (after : List (Demand E)) × (ds ≡ before ++ d ∷ after) × (first_fault before ≡ None) × (d.holds ≡ false) × (d.refusal ≡ e) }
{}

/// In tables whose demands hold, each cell names what its column says. Rows are counted from 0.
pub fn cells_name_items()
    ensures { (bs : List ℕ) (base t r c : ℕ) → first_fault (tables_demands bs base) ≡ None → t < 45 → r < rows_of (tables_stream bs) t → c < length (columns_of t) → names_item bs (column_of t c) (cell_number (tables_stream bs) t (r + 1) c) ≡ true }
{}

/// In tables whose demands hold, runs never fall. Pairs of rows are counted from 0.
pub fn runs_never_fall()
    ensures { (bs : List ℕ) (base t r c : ℕ) → first_fault (tables_demands bs base) ≡ None → t < 45 → r + 1 < rows_of (tables_stream bs) t → c < length (columns_of t) → is_run (column_of t c) ≡ true → cell_number (tables_stream bs) t (r + 1) c ≤ cell_number (tables_stream bs) t (r + 2) c }
{}

/// In tables whose demands hold, the rows of a sorted table are in order. Pairs of rows are counted from 0.
pub fn tables_are_sorted()
    ensures { (bs : List ℕ) (base t r : ℕ) → first_fault (tables_demands bs base) ≡ None → t < 45 → r + 1 < rows_of (tables_stream bs) t → in_order (sort_key_of t) (cell_number (tables_stream bs) t (r + 1)) (cell_number (tables_stream bs) t (r + 2)) ≡ true }
{}

/// In tables whose demands hold, no table has too many rows.
pub fn rows_are_few()
    ensures { (bs : List ℕ) (base t : ℕ) → first_fault (tables_demands bs base) ≡ None → t < 45 → rows_of (tables_stream bs) t ≤ most_rows }
{}
