ghost use Rattle.std.specs.Prelude.{◌≡◌, ◌<◌, length, slice_index_or, None, IfOk};
ghost use Rattle.std.specs.Option.{option_map};
ghost use Rattle.rules.specs.link_rules.Members.{method_def_use, field_def_use};
ghost use Rattle.type_tables.specs.member_search.Found.{told};
ghost use Rattle.type_tables.specs.member_search.Params.{AreParamCounts};
ghost use Rattle.resolver.specs.member_links.Definitions.{with_owner, OwnMethods, OwnFields};

use crate::member_links::uses::{field_use, method_use};
use il_base::NoMemory;
use il_base::world_model::{AsmRec, FieldUse, Known, MethodUse};
use rules::link_rules::RowAt;
use std::alloc::Global;
use type_tables::member_search::found::Found;
use type_tables::member_search::linked::Scope;
use type_tables::member_search::own_types::own_type;
use type_tables::member_search::owners::{field_owners, method_owners};
use type_tables::member_search::params::ParamCounts;

/// The type that has each method or each field of an assembly, and how many parameters its types have.
#[derive(Drop)]
pub(crate) struct Definitions {
    /// By the member's row: the type's row, both from 0.
    owners: Vec<Option<u32>>,
    params: ParamCounts,
}

impl Definitions {
    /// The definitions of the methods.
    pub(crate) fn of_methods(alloc: Global, rec: &AsmRec) -> Result<Definitions, NoMemory>
        ensures { IfOk result (OwnMethods rec.now) }
    {
        let owners = method_owners(alloc, rec)?;
        let params = ParamCounts::of(alloc, rec)?;
        Ok(Definitions { owners, params })
    }

    /// The definitions of the fields.
    pub(crate) fn of_fields(alloc: Global, rec: &AsmRec) -> Result<Definitions, NoMemory>
        ensures { IfOk result (OwnFields rec.now) }
    {
        let owners = field_owners(alloc, rec)?;
        let params = ParamCounts::of(alloc, rec)?;
        Ok(Definitions { owners, params })
    }

    fn owner(&self, k: u32) -> Option<u32>
        ensures { result ≡ slice_index_or self.now.owners.items k None }
    {
        match self.owners.get(k as usize) {
            Some(owner) => *owner,
            None => None,
        }
    }
}

/// A member in the type that has it, with the type's own generic parameters as arguments.
fn own_member(
    alloc: Global,
    scope: &Scope<'_>,
    definitions: &Definitions,
    k: u32,
) -> Result<Option<Found>, NoMemory>
    requires { AreParamCounts scope.now.rec.now definitions.now.params }
    ensures { IfOk result (λ found. option_map told found ≡ with_owner scope.now.linked.all.now scope.now.asm scope.now.rec.now k (slice_index_or definitions.now.owners.items k None)) }
{
    let Some(row) = definitions.owner(k) else {
        return Ok(None);
    };
    let at = RowAt {
        asm: scope.asm,
        row,
    };
    let owner = own_type(alloc, scope.linked.all, scope.rec, &definitions.params, at)?;
    Ok(Some(Found {
        at: RowAt {
            asm: scope.asm,
            row: k,
        },
        owner,
    }))
}

/// The use of a method by its own token. A method that is in no type's run is unresolved.
#[tactic(auto, unfolding(rules::specs::link_rules::Members::method_def_use))]
pub(crate) fn method_def_use(
    alloc: Global,
    scope: &Scope<'_>,
    methods: &Definitions,
    k: u32,
) -> Result<Known<MethodUse>, NoMemory>
    requires own { OwnMethods scope.now.rec.now methods.now }
    requires there { k < length scope.now.rec.now.method_def }
    ensures { IfOk result (λ u. u ≡ method_def_use scope.now.linked.all.now scope.now.asm scope.now.rec.now k) }
{
    let found = own_member(alloc, scope, methods, k)?;
    method_use(alloc, scope.linked.all, found)
}

/// The use of a field by its own token. A field that is in no type's run is unresolved.
#[tactic(auto, unfolding(rules::specs::link_rules::Members::field_def_use))]
pub(crate) fn field_def_use(
    alloc: Global,
    scope: &Scope<'_>,
    fields: &Definitions,
    k: u32,
) -> Result<Known<FieldUse>, NoMemory>
    requires own { OwnFields scope.now.rec.now fields.now }
    requires there { k < length scope.now.rec.now.field }
    ensures { IfOk result (λ u. u ≡ field_def_use scope.now.linked.all.now scope.now.asm scope.now.rec.now k) }
{
    let found = own_member(alloc, scope, fields, k)?;
    field_use(scope.linked.all, found)
}
