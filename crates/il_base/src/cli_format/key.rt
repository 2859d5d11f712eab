ghost use Rattle.std.specs.Prelude.{◌≡◌};
ghost use Rattle.il_base.specs.cli_format.Columns.{sort_key_of};

use crate::cli_format::key::SortKey::{ByOne, ByTwo, Strictly, Unsorted};

/// The columns, counted from 0, by which a table is sorted (II.22).
#[derive(Clone, Copy, Debug, PartialEq, Eq)]
pub enum SortKey {
    /// The table isn't sorted.
    Unsorted,
    /// That column never falls from row to row.
    ByOne(u8),
    /// That column rises from row to row.
    Strictly(u8),
    /// The first column never falls, and neither does the second where the first stays.
    ByTwo(u8, u8),
}

/// The sort keys of the tables, in order of their numbers.
#[rattlefmt::skip]
pub const SORT_KEYS: [SortKey; 45] = [
    Unsorted, Unsorted, Unsorted, Unsorted, Unsorted, Unsorted, Unsorted, Unsorted,
    // Param, InterfaceImpl by Class, MemberRef, Constant by Parent, CustomAttribute by Parent
    Unsorted, ByOne(0), Unsorted, ByOne(2), ByOne(0),
    // FieldMarshal by Parent, DeclSecurity by Parent, ClassLayout by Parent
    ByOne(0), ByOne(1), ByOne(2),
    // FieldLayout by Field
    ByOne(1), Unsorted, Unsorted, Unsorted, Unsorted, Unsorted, Unsorted, Unsorted,
    // MethodSemantics by Association, MethodImpl by Class
    ByOne(2), ByOne(0), Unsorted, Unsorted,
    // ImplMap by MemberForwarded, FieldRVA by Field
    ByOne(1), ByOne(1), Unsorted, Unsorted,
    Unsorted, Unsorted, Unsorted, Unsorted, Unsorted, Unsorted, Unsorted, Unsorted,
    // ManifestResource, NestedClass by NestedClass, GenericParam by Owner and Number
    Unsorted, Strictly(0), ByTwo(2, 0),
    // MethodSpec, GenericParamConstraint by Owner
    Unsorted, ByOne(0),
];

/// The sort key of a table.
#[tactic(auto, unfolding(crate::specs::cli_format::Columns::sort_key_of))]
pub fn sort_key(table: u8) -> SortKey
    ensures { result ≡ sort_key_of table }
{
    if table < 45 {
        SORT_KEYS[table as usize]
    } else {
        Unsorted
    }
}
