//! Types by the names that texts give them.

ghost use Rattle.std.specs.Prelude.{◌≡◌, ◌<◌, length, position, IfOk};
ghost use Rattle.rules.specs.link_rules.Types.{at_row, is_added, is_called, assembly_named};
ghost use Rattle.rules.specs.type_rules.Texts.{text};
ghost use Rattle.rules.specs.type_rules.Labels.{label, space};
ghost use Rattle.rules.specs.type_rules.Searches.{type_along_at, find_type};

use crate::assemblies::Assemblies;
use crate::rows::TypeRows;
use attr_blobs::TypeName;
use il_base::core_table::TYPE_COUNT;
use il_base::world_model::{AsmRec, TypeExpr, is_core_name, type_id};
use il_base::{AsmId, NoMemory, Seq, Text, TypeId};
use std::alloc::Global;
use std::marker::Model;

/// An index of the types of a world by their names, made once. Contracts see the records, of which the last is the core
/// library's.
#[derive(Drop)]
pub struct TypeNames<'a> {
    world: Assemblies<'a>,
    types: Seq<TypeRows<'a>>,
}

impl<'a> Model for TypeNames<'a> {
    ghost use Rattle.std.specs.Prelude.{◌≡◌, ◌<◌, List, length};
    ghost use Rattle.std.specs.Coded.{coded_list};
    ghost use Rattle.il_base.specs.declared.world_model.record.AsmRec.{AsmRec};
    ghost use Rattle.il_base.specs.contracts.world_model.record.AsmRec as asm_rec;
    ghost use Rattle.il_base.specs.world_model.Worlds.{rows_before, types_in};

    ghost Value = { List AsmRec };

    ghost coded = { coded_list asm_rec.the_row.coded };

    ghost view = { λ t. t.world };

    ghost invariant = { λ t. (t.types ≡ t.world) × (rows_before types_in t.world (length t.world) < 4294967296) };
}

impl<'a> TypeNames<'a> {
    /// The index of the types of these assemblies. The error comes also where they have more than 4294967295 types.
    pub fn of(alloc: Global, recs: &'a [AsmRec]) -> Result<TypeNames<'a>, NoMemory>
        ensures { IfOk result (λ names. names ≡ recs.now) }
    {
        if type_id(recs, recs.len(), 0).is_none() {
            return Err(NoMemory);
        }
        match Assemblies::of(alloc, recs) {
            Err(_) => Err(NoMemory),
            Ok(world) => match type_rows(alloc, &world) {
                Err(_) => Err(NoMemory),
                Ok(types) => Ok(TypeNames { world, types }),
            },
        }
    }

    /// The text of a type: its namespace, a full stop and its name; a nested type after its encloser and `+`; arguments
    /// in brackets after a constructed type, `[]` after an array's element, `&` after what is referred to.
    pub fn text(&self, alloc: Global, ty: &TypeExpr) -> Result<Text, NoMemory>
        ensures { IfOk result (λ t. t ≡ text self.now ty.now) }
    {
        self.world.text(alloc, ty)
    }

    /// A type's own name: that of its definition without enclosers and arguments, `[]` after an array's element, `&` after what is
    /// referred to, the number of a generic parameter after its sign.
    pub fn label(&self, alloc: Global, ty: &TypeExpr) -> Result<Text, NoMemory>
        ensures { IfOk result (λ t. t ≡ label self.now ty.now) }
    {
        self.world.label(alloc, ty)
    }

    /// A type's namespace: a nested type has that of the outermost type around it, an array that of its element, a generic parameter
    /// none.
    pub fn space(&self, alloc: Global, ty: &TypeExpr) -> Result<Text, NoMemory>
        ensures { IfOk result (λ t. t ≡ space self.now ty.now) }
    {
        self.world.space(alloc, ty)
    }

    /// The type that a name is of: without an assembly's name it is looked for in the assembly that asks and then in the
    /// core library, with one in that assembly alone. A name that only modifiers use is not a type of the core library here.
    #[tactic(auto, unfolding(rules::specs::type_rules::Searches::find_type))]
    pub fn find_type(&self, from: AsmId, n: &TypeName) -> Option<TypeId>
        ensures { result ≡ find_type self.now from.0 n.now }
    {
        let recs = self.world.recs();
        let path = n.path.as_slice();
        match &n.asm {
            None => match self.type_along(from.0 as usize, path) {
                Some(id) => Some(id),
                None => self.type_along(recs.len().saturating_sub(1), path),
            },
            Some(name) => match assembly_named(recs, name.as_slice()) {
                None => None,
                Some(at) => self.type_along(at, path),
            },
        }
    }

    /// The type that a path names in the assembly at a place, from 0; None for a type that modifiers alone find (II.7.1.1).
    fn type_along(&self, at: usize, path: &[Text]) -> Option<TypeId>
        ensures { result ≡ type_along_at self.now path.now at }
    {
        match self.types.get(at) {
            None => None,
            Some(types) => match types.along(path) {
                None => None,
                Some(row) => {
                    let recs = self.world.recs();
                    if is_added(recs, at, row) {
                        None
                    } else {
                        type_id(recs, at, row as usize)
                    }
                }
            },
        }
    }
}

/// The types of each assembly by their full names.
fn type_rows<'a>(alloc: Global, world: &Assemblies<'a>) -> Result<Seq<TypeRows<'a>>, NoMemory>
    ensures { IfOk result (λ types. types ≡ world.now) }
{
    let mut types: Seq<TypeRows<'a>> = Seq::new(alloc);
    for nested in world.nested() {
        match TypeRows::of(alloc, nested) {
            Err(_) => return Err(NoMemory),
            Ok(one) => types.push(one)?,
        }
    }
    Ok(types)
}

/// Whether a row of an assembly, both from 0, is one of the core library after those of its table.
fn is_added(recs: &[AsmRec], at: usize, row: u32) -> bool
    requires { at < length recs.now }
    ensures { result ≡ is_added recs.now (at_row at row) }
{
    at + 1 == recs.len() && row >= TYPE_COUNT
}

fn is_called(name: &[u8], rec: &AsmRec) -> bool
    ensures { result ≡ is_called name.now rec.now }
{
    match rec.assembly.as_slice() {
        [] => false,
        [row, ..] => row.name.as_slice() == name,
    }
}

/// The place, from 0, of the first assembly of this name.
fn first_called(recs: &[AsmRec], name: &[u8]) -> Option<usize>
    ensures { result ≡ position (is_called name.now) recs.now }
{
    recs.iter().position(|rec| is_called(name, rec))
}

/// The place, from 0, of the first assembly of this name, and else of the core library, if the name is one of its own.
#[tactic(auto, unfolding(rules::specs::link_rules::Types::assembly_named))]
fn assembly_named(recs: &[AsmRec], name: &[u8]) -> Option<usize>
    ensures { result ≡ assembly_named recs.now name.now }
{
    match first_called(recs, name) {
        Some(at) => Some(at),
        None => {
            if is_core_name(name) {
                Some(recs.len().saturating_sub(1))
            } else {
                None
            }
        }
    }
}
