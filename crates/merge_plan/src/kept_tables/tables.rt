//! All tables whose rows are kept with their items.

ghost use Rattle.std.specs.Prelude.{◌≡◌, map, IfOk};
ghost use Rattle.rules.specs.merge_rules.Rows.{place_token, places};
ghost use Rattle.merge_plan.specs.Kept.{kept_by, kept_of_kind};
ghost use Rattle.merge_plan.specs.kept_tables.Order.{sorted_of};
ghost use Rattle.merge_plan.specs.kept_tables.Kept.{AreKept, AreKeptItems, IsTableOf, rows_in, token_by};

use crate::kept_tables::constraints::kept_constraints;
use crate::kept_tables::generics::kept_generic_params;
use crate::kept_tables::interfaces::kept_interfaces;
use crate::kept_tables::order::SortedRow;
use crate::kept_tables::params::params_of;
use crate::kept_tables::places::{first_token, place_token, row_in};
use crate::{KeptItems, Kind, Numbers, kept_rows};
use il_base::world_model::{AsmRec, table_of};
use il_base::{NoMemory, table};
use rules::link_rules::RowAt;
use std::alloc::Global;

/// The rows of kept items and the parameters of kept methods, each table with the old places of its rows.
#[derive(Drop)]
pub struct ItemTables {
    pub types: Numbers,
    pub fields: Numbers,
    pub methods: Numbers,
    pub params: Numbers,
    pub properties: Numbers,
    pub events: Numbers,
}

/// A sorted table of the output: its rows in order with their new owners, and their old places.
#[derive(Drop)]
pub struct SortedTable {
    pub rows: Vec<SortedRow>,
    pub numbers: Numbers,
}

/// The tables of the output, each with the old places of its rows.
#[derive(Drop)]
pub struct KeptTables {
    pub items: ItemTables,
    pub interfaces: SortedTable,
    pub generic_params: SortedTable,
    pub constraints: SortedTable,
}

fn numbers_of(
    alloc: Global,
    recs: &[AsmRec],
    kind: Kind,
    kept: &KeptItems,
) -> Result<Numbers, NoMemory>
    ensures { IfOk result (λ n. n ≡ kept_of_kind kind recs.now (kept_by kept.now)) }
{
    let rows = kept_rows(alloc, recs, kind, kept)?;
    Numbers::of(alloc, rows)
}

impl ItemTables {
    /// The rows of these items.
    fn of(alloc: Global, recs: &[AsmRec], kept: &KeptItems) -> Result<ItemTables, NoMemory>
        ensures { IfOk result (AreKeptItems recs.now (kept_by kept.now)) }
    {
        let types = numbers_of(alloc, recs, Kind::Types, kept)?;
        let fields = numbers_of(alloc, recs, Kind::Fields, kept)?;
        let methods = numbers_of(alloc, recs, Kind::Methods, kept)?;
        let rows = params_of(alloc, recs, methods.rows())?;
        let params = Numbers::of(alloc, rows)?;
        let properties = numbers_of(alloc, recs, Kind::Properties, kept)?;
        let events = numbers_of(alloc, recs, Kind::Events, kept)?;
        Ok(ItemTables {
            types,
            fields,
            methods,
            params,
            properties,
            events,
        })
    }
}

/// The places of rows.
fn places_of(alloc: Global, rows: &[SortedRow]) -> Result<Vec<RowAt>, NoMemory>
    ensures { IfOk result (λ ps. ps.items ≡ places (map sorted_of rows.now)) }
{
    let mut places = Vec::new(alloc);
    for row in rows {
        places.push(row.at)?;
    }
    Ok(places)
}

impl SortedTable {
    fn of(alloc: Global, rows: Vec<SortedRow>) -> Result<SortedTable, NoMemory>
        ensures { IfOk result (IsTableOf (map sorted_of rows.items)) }
    {
        let places = places_of(alloc, rows.as_slice())?;
        let numbers = Numbers::of(alloc, places)?;
        Ok(SortedTable { rows, numbers })
    }
}

impl KeptTables {
    /// The tables of the output of a merge of the assemblies of a world, of which the last is the core library.
    pub fn of(alloc: Global, recs: &[AsmRec], kept: &KeptItems) -> Result<KeptTables, NoMemory>
        ensures { IfOk result (AreKept recs.now (kept_by kept.now)) }
    {
        let items = ItemTables::of(alloc, recs, kept)?;
        let impls = kept_interfaces(alloc, recs, kept, &items.types)?;
        let interfaces = SortedTable::of(alloc, impls)?;
        let params = kept_generic_params(alloc, recs, &items.types, &items.methods)?;
        let generic_params = SortedTable::of(alloc, params)?;
        let bounds = kept_constraints(alloc, recs, &generic_params.numbers)?;
        let constraints = SortedTable::of(alloc, bounds)?;
        Ok(KeptTables {
            items,
            interfaces,
            generic_params,
            constraints,
        })
    }

    /// The token of a row among the rows of a table; None where the row isn't kept, or where no row of the table is.
    fn place(&self, of: u8, at: RowAt) -> Option<u32>
        ensures { result ≡ place_token of (rows_in self.now of) at }
    {
        match of {
            table::TYPE_DEF => place_token(of, &self.items.types, at),
            table::FIELD => place_token(of, &self.items.fields, at),
            table::METHOD_DEF => place_token(of, &self.items.methods, at),
            table::PARAM => place_token(of, &self.items.params, at),
            table::INTERFACE_IMPL => place_token(of, &self.interfaces.numbers, at),
            table::EVENT => place_token(of, &self.items.events, at),
            table::PROPERTY => place_token(of, &self.items.properties, at),
            table::GENERIC_PARAM => place_token(of, &self.generic_params.numbers, at),
            table::GENERIC_PARAM_CONSTRAINT => place_token(of, &self.constraints.numbers, at),
            table::ASSEMBLY => first_token(of, at),
            table::MODULE => first_token(of, at),
            _ => None,
        }
    }

    /// The new token of a row of an input; None where the row isn't kept. Of Assembly and Module the first input's rows are kept.
    pub fn token(&self, asm: u32, token: u32) -> Option<u32>
        ensures { result ≡ token_by self.now asm token }
    {
        let of = table_of(token);
        match row_in(of, token) {
            None => None,
            Some(row) => self.place(of, RowAt { asm, row }),
        }
    }
}
