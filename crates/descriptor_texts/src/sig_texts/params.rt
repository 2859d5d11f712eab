//! The names of generic parameters (II.22.20).

ghost use Rattle.std.specs.Prelude.{◌≡◌};
ghost use Rattle.std.specs.List.{flat_map};
ghost use Rattle.std.specs.Option.{option_copied};
ghost use Rattle.rules.specs.link_rules.Cycles.{listed};
ghost use Rattle.rules.specs.mark_rules.Roots.{first_text, parameter_name};
ghost use Rattle.mark_parts.specs.mark_tables.Assemblies.{rec_of, IsAssembly};
ghost use Rattle.descriptor_texts.specs.sig_texts.Params.{named_at};

use il_base::world_model::AsmRec;
use mark_parts::mark_tables::assembly::Assembly;

/// The name in a row, from 0, of GenericParam, where the row has this number.
fn named_at(rec: &AsmRec, n: u32, k: u32) -> Option<&[u8]>
    ensures { listed (option_copied result) ≡ named_at rec.now n k }
{
    match rec.generic_param.get(k as usize) {
        None => None,
        Some(row) => {
            if u32::from(row.number) == n {
                Some(row.name.as_slice())
            } else {
                None
            }
        }
    }
}

/// The name in the first of these rows, from 0, of GenericParam that has this number, and `?` without one.
fn first_named<'a>(rec: &'a AsmRec, n: u32, rows: &[u32]) -> &'a [u8]
    ensures { result.now ≡ first_text (flat_map (named_at rec.now n) rows.now) }
{
    for k in rows {
        match named_at(rec, n, *k) {
            Some(name) => return name,
            None => {}
        }
    }
    b"?"
}

/// The name of the generic parameter of an owner, by its token, with a number from 0; `?` where no row has it.
pub(crate) fn parameter_name<'a>(asm: &Assembly<'a>, owner: u32, n: u32) -> &'a [u8]
    requires { IsAssembly asm.now }
    ensures { result.now ≡ parameter_name (rec_of asm.now) owner n }
{
    let rows = asm.owners.params.rows_with(owner);
    first_named(asm.scope.rec, n, rows)
}
