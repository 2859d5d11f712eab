ghost use Rattle.std.specs.Prelude.{◌≡◌, IfOk};
ghost use Rattle.rules.specs.link_rules.Signatures.{names_at};
ghost use Rattle.rules.specs.link_rules.Members.{arguments_of, generic_method, method_spec_use};
ghost use Rattle.type_tables.specs.member_search.Linked.{IsScope};
ghost use Rattle.resolver.specs.member_links.Definitions.{OwnMethods};

use crate::member_links::definitions::{Definitions, method_def_use};
use crate::member_links::references::method_ref_use;
use il_base::world_model::{
    BadKind, Known, MethodSpecRow, MethodUse, TypeExpr, index_in, table_of,
};
use il_base::{NoMemory, Seq, Sig, table};
use std::alloc::Global;
use type_tables::member_search::linked::Scope;
use type_tables::member_search::method_types::open_types;

/// The method that a MethodDef or MemberRef token names.
#[tactic(auto, unfolding(rules::specs::link_rules::Members::generic_method))]
fn generic_method(
    alloc: Global,
    scope: &Scope<'_>,
    methods: &Definitions,
    token: u32,
) -> Result<Known<MethodUse>, NoMemory>
    requires scope { IsScope scope.now }
    requires own { OwnMethods scope.now.rec.now methods.now }
    ensures { IfOk result (λ u. u ≡ generic_method scope.now.linked.all.now scope.now.asm scope.now.rec.now token) }
{
    if table_of(token) == table::METHOD_DEF {
        return match index_in(table::METHOD_DEF, token) {
            Some(k) if (k as usize) < scope.rec.method_def.len() => {
                method_def_use(alloc, scope, methods, k)
            }
            _ => Ok(Known::Bad(BadKind::Unresolved)),
        };
    }
    let Some(k) = index_in(table::MEMBER_REF, token) else {
        return Ok(Known::Bad(BadKind::Unresolved));
    };
    match scope.rec.member_ref.get(k as usize) {
        Some(row) => method_ref_use(alloc, scope, row),
        None => Ok(Known::Bad(BadKind::Unresolved)),
    }
}

/// The method with its arguments that a method instance names, or why it names none (II.22.29).
#[tactic(auto, unfolding(rules::specs::link_rules::Members::method_spec_use))]
pub(crate) fn method_spec_use(
    alloc: Global,
    scope: &Scope<'_>,
    methods: &Definitions,
    row: &MethodSpecRow,
) -> Result<Known<MethodUse>, NoMemory>
    requires scope { IsScope scope.now }
    requires own { OwnMethods scope.now.rec.now methods.now }
    ensures { IfOk result (λ u. u ≡ method_spec_use scope.now.linked.all.now scope.now.asm scope.now.rec.now row.now) }
{
    let MethodUse { method, owner, .. } = match generic_method(alloc, scope, methods, row.method) {
        Ok(Known::Good(generic)) => generic,
        Ok(Known::Bad(why)) => return Ok(Known::Bad(why)),
        Err(error) => return Err(error),
    };
    let sigs = match &row.instantiation {
        Known::Good(sigs) => sigs.as_slice(),
        Known::Bad(why) => return Ok(Known::Bad(*why)),
    };
    match open_types(alloc, scope, sigs) {
        Ok(Known::Good(args)) => Ok(Known::Good(MethodUse {
            method,
            owner,
            args,
        })),
        Ok(Known::Bad(why)) => Ok(Known::Bad(why)),
        Err(error) => Err(error),
    }
}
