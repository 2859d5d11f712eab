//! The names under which an assembly is found.

ghost use Rattle.std.specs.Prelude.{◌≡◌, ◌++◌, ◌∷◌, [], map, IfOk, OnOk};
ghost use Rattle.il_base.specs.declared.world_model.assemblies.AssemblyRow.{AssemblyRow};
ghost use Rattle.rules.specs.mark_rules.Attributes.{core_names, names_of_assembly};
ghost use Rattle.mark_parts.specs.mark_tables.Assemblies.{recs_of, place_of, rec_of, IsAssembly};

use il_base::world_model::AssemblyRow;
use il_base::{NoMemory, Seq, Text};
use mark_parts::mark_tables::assembly::Assembly;
use std::alloc::Global;

/// Puts a name at the end.
fn push_name(alloc: Global, name: &[u8], names: &mut Seq<Text>) -> Result<(), NoMemory>
    ensures { OnOk result (names.new ≡ names.old ++ name.now ∷ []) }
{
    let name = Seq::from_slice(alloc, name)?;
    names.push(name)
}

/// The names under which the core library is referred to.
fn core_names(alloc: Global) -> Result<Seq<Text>, NoMemory>
    ensures { IfOk result (λ names. names ≡ core_names) }
{
    let mut names = Seq::new(alloc);
    push_name(alloc, b"System.Runtime", &mut names)?;
    push_name(alloc, b"System.Console", &mut names)?;
    push_name(alloc, b"System.Private.CoreLib", &mut names)?;
    push_name(alloc, b"mscorlib", &mut names)?;
    push_name(alloc, b"netstandard", &mut names)?;
    Ok(names)
}

/// The names of rows of Assembly (II.22.2).
fn row_names(alloc: Global, rows: &[AssemblyRow]) -> Result<Seq<Text>, NoMemory>
    ensures { IfOk result (λ names. names ≡ map (λ (row : AssemblyRow). row.name) rows.now) }
{
    let mut names = Seq::new(alloc);
    for row in rows {
        push_name(alloc, row.name.as_slice(), &mut names)?;
    }
    Ok(names)
}

/// The names under which an assembly is found: those of the core library, which is the last one, or its own.
pub fn names_of_assembly(alloc: Global, asm: &Assembly<'_>) -> Result<Seq<Text>, NoMemory>
    requires { IsAssembly asm.now }
    ensures { IfOk result (λ names. names ≡ names_of_assembly (recs_of asm.now) (place_of asm.now) (rec_of asm.now)) }
{
    if asm.scope.asm as usize + 1 == asm.scope.linked.all.len() {
        return core_names(alloc);
    }
    row_names(alloc, asm.scope.rec.assembly.as_slice())
}
