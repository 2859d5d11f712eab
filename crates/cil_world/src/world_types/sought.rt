//! Types by the names that texts give them.

ghost use Rattle.std.specs.Prelude.{◌≡◌, IfOk};
ghost use Rattle.attr_blobs.specs.Values.{name_of_text};
ghost use Rattle.rules.specs.view_rules.Answers.{find_query, sought_from, sought_type};

use attr_blobs::NameRead;
use descriptor_texts::name_texts::name_of_text;
use il_base::cil_values::Sought;
use il_base::world_model::AsmRec;
use il_base::{AsmId, MethodId, NoMemory, TypeId};
use std::alloc::Global;
use type_names::TypeNames;
use type_tables::member_search::homes::type_home;
use type_tables::member_search::own_types::definition_expr;
use type_tables::methods::method_home;

/// A type that was found, as its definition.
fn sought_type(all: &[AsmRec], found: Option<TypeId>) -> Result<Sought, NoMemory>
    ensures { IfOk result (λ sought. sought ≡ sought_type all.now found) }
{
    let Some(id) = found else {
        return Ok(Sought::Missing);
    };
    match type_home(all, id) {
        Ok(Some(at)) => {
            let ty = definition_expr(all, at)?;
            Ok(Sought::Found(ty))
        }
        Ok(None) => Ok(Sought::Missing),
        Err(error) => Err(error),
    }
}

/// The type that a name is of, looked for from an assembly, by its place from 0.
fn sought_from(
    all: &[AsmRec],
    names: &TypeNames<'_>,
    from: u32,
    read: &NameRead,
) -> Result<Sought, NoMemory>
    requires { names.now ≡ all.now }
    ensures { IfOk result (λ sought. sought ≡ sought_from all.now from read.now) }
{
    match read {
        NameRead::Name(n) => sought_type(all, names.find_type(AsmId(from), n)),
        NameRead::Malformed => Ok(Sought::Missing),
        NameRead::Other => Ok(Sought::Unread),
    }
}

/// The same for a text in UTF-8.
fn sought_text(
    alloc: Global,
    all: &[AsmRec],
    names: &TypeNames<'_>,
    from: u32,
    text: &[u8],
) -> Result<Sought, NoMemory>
    requires { names.now ≡ all.now }
    ensures { IfOk result (λ sought. sought ≡ sought_from all.now from (name_of_text text.now)) }
{
    let read = name_of_text(alloc, text)?;
    let sought = sought_from(all, names, from, &read)?;
    Ok(sought)
}

/// The type that a text in UTF-8 names, looked for in the assembly of a method and then in the core library.
#[tactic(auto, unfolding(rules::specs::view_rules::Answers::find_query))]
pub(crate) fn find(
    alloc: Global,
    all: &[AsmRec],
    names: &TypeNames<'_>,
    method: MethodId,
    text: &[u8],
) -> Result<Sought, NoMemory>
    requires { names.now ≡ all.now }
    ensures { IfOk result (λ sought. sought ≡ find_query all.now method.0 text.now) }
{
    match method_home(all, method) {
        Ok(Some(at)) => sought_text(alloc, all, names, at.asm, text),
        Ok(None) => Ok(Sought::Missing),
        Err(error) => Err(error),
    }
}
