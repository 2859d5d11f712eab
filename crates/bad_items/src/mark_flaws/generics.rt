//! Variance of generic parameters (II.10.1.7).

ghost use Rattle.std.specs.Prelude.{◌≡◌, ◌++◌, [], slice_get, OnOk};
ghost use Rattle.std.specs.List.{flat_map};
ghost use Rattle.std.specs.Option.{option_map_or};
ghost use Rattle.rules.specs.mark_rules.BadItems.{variance_flaws};
ghost use Rattle.mark_parts.specs.mark_tables.Assemblies.{rec_of, IsAssembly};
ghost use Rattle.bad_items.specs.mark_flaws.Rows.{is_variant, variant_at};

use crate::mark_flaws::flaws::Flaws;
use il_base::world_model::{AsmRec, GenericParamRow, token_of};
use il_base::{NoMemory, generic_flags, has_flag, outside, table};
use mark_parts::mark_tables::assembly::Assembly;
use rules::link_rules::RowAt;

/// Whether a generic parameter is covariant or contravariant (II.23.1.7).
fn is_variant(row: &GenericParamRow) -> bool
    ensures { result ≡ is_variant row.now }
{
    has_flag(row.flags, generic_flags::COVARIANT)
        || has_flag(row.flags, generic_flags::CONTRAVARIANT)
}

/// Puts the flaw of a generic parameter, by its row from 0, at the end, if it is variant.
fn add_variant(at: RowAt, rec: &AsmRec, k: u32, flaws: &mut Flaws) -> Result<(), NoMemory>
    ensures { OnOk result (flaws.new ≡ flaws.old ++ option_map_or (variant_at at k) (slice_get rec.now.generic_param k) []) }
{
    match rec.generic_param.get(k as usize) {
        Some(row) => {
            let token = token_of(table::GENERIC_PARAM, k as usize)?;
            flaws.put_if(is_variant(row), at, token, outside::VARIANCE)
        }
        None => Ok(()),
    }
}

/// Puts the flaws of these generic parameters at the end.
fn add_variants(at: RowAt, rec: &AsmRec, ks: &[u32], flaws: &mut Flaws) -> Result<(), NoMemory>
    ensures { OnOk result (flaws.new ≡ flaws.old ++ flat_map (λ k. option_map_or (variant_at at k) (slice_get rec.now.generic_param k) []) ks.now) }
{
    for k in ks {
        add_variant(at, rec, *k, flaws)?;
    }
    Ok(())
}

/// Puts the flaws of the generic parameters of a type or a method, by its token, at the end.
pub(crate) fn add_variance(
    asm: &Assembly<'_>,
    at: RowAt,
    owner: u32,
    flaws: &mut Flaws,
) -> Result<(), NoMemory>
    requires { IsAssembly asm.now }
    ensures { OnOk result (flaws.new ≡ flaws.old ++ variance_flaws at (rec_of asm.now) owner) }
{
    let ks = asm.owners.params.rows_with(owner);
    add_variants(at, asm.scope.rec, ks, flaws)?;
    Ok(())
}
