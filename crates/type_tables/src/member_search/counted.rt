ghost use Rattle.std.specs.Prelude.{◌≡◌, ◌+◌, IfOk};
ghost use Rattle.il_base.specs.world_model.Worlds.{rows_before};
ghost use Rattle.type_tables.specs.member_search.Counted.{count_in};

use il_base::NoMemory;
use il_base::world_model::AsmRec;

/// A table whose rows are counted over all assemblies.
#[derive(Clone, Copy)]
pub enum Counted {
    Types,
    Methods,
    Fields,
    Properties,
    Events,
}

/// How many rows an assembly has in the table.
pub fn count_in(rec: &AsmRec, counted: Counted) -> usize
    ensures { result ≡ count_in counted rec.now }
{
    match counted {
        Counted::Types => rec.type_def.len(),
        Counted::Methods => rec.method_def.len(),
        Counted::Fields => rec.field.len(),
        Counted::Properties => rec.property.len(),
        Counted::Events => rec.event.len(),
    }
}

/// A row or a place as a number of 32 bits.
pub fn row_of(k: usize) -> Result<u32, NoMemory>
    ensures { IfOk result (λ row. row ≡ k) }
{
    match u32::try_from(k) {
        Ok(row) => Ok(row),
        Err(_) => Err(NoMemory),
    }
}

/// A sum of 32 bits.
pub fn sum(a: u32, b: usize) -> Result<u32, NoMemory>
    ensures { IfOk result (λ n. n ≡ a + b) }
{
    let Ok(b) = u32::try_from(b) else {
        return Err(NoMemory);
    };
    match a.checked_add(b) {
        Some(n) => Ok(n),
        None => Err(NoMemory),
    }
}

/// How many rows of the table the first `a` assemblies have.
#[tactic(auto, unfolding(il_base::specs::world_model::Worlds::rows_before))]
pub fn rows_before(all: &[AsmRec], counted: Counted, a: usize) -> Result<u32, NoMemory>
    ensures { IfOk result (λ n. n ≡ rows_before (count_in counted) all.now a) }
{
    let mut before = 0u32;
    for (i, rec) in all.iter().enumerate() {
        if i == a {
            break;
        }
        before = sum(before, count_in(rec, counted))?;
    }
    Ok(before)
}
