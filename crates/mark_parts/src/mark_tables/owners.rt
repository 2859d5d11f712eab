//! The rows of an assembly, grouped by the types or members that they belong to.

ghost use Rattle.std.specs.Prelude.{IfOk};
ghost use Rattle.std.specs.List.{AllZip};
ghost use Rattle.mark_parts.specs.mark_tables.Owners.{AreOwnerRows};

use crate::mark_tables::enclosers::Enclosers;
use crate::mark_tables::keys::{
    by_accessor, by_attribute_parent, by_constraint_owner, by_param_owner, by_text,
};
use il_base::NoMemory;
use il_base::world_model::AsmRec;
use std::alloc::Global;
use type_tables::groups::Groups;
use type_tables::member_search::owners::field_owners;

/// The tables of an assembly: the types that have fields and that enclose others, and the rows of tables by the types or members
/// that they belong to.
#[derive(Drop)]
pub struct OwnerRows {
    /// The first type whose run each field is in, both by their rows from 0.
    pub fields: Vec<Option<u32>>,
    pub enclosers: Enclosers,
    /// GenericParam by Owner.
    pub params: Groups,
    /// GenericParamConstraint by Owner.
    pub constraints: Groups,
    /// CustomAttribute by Parent.
    pub attributes: Groups,
    /// MethodSemantics by Method.
    pub accessors: Groups,
    /// User strings by their tokens.
    pub texts: Groups,
}

impl OwnerRows {
    fn of(alloc: Global, rec: &AsmRec) -> Result<OwnerRows, NoMemory>
        ensures { IfOk result (AreOwnerRows rec.now) }
    {
        let fields = field_owners(alloc, rec)?;
        let enclosers = Enclosers::of(alloc, rec)?;
        let params = by_param_owner(alloc, rec)?;
        let constraints = by_constraint_owner(alloc, rec)?;
        let attributes = by_attribute_parent(alloc, rec)?;
        let accessors = by_accessor(alloc, rec)?;
        let texts = by_text(alloc, rec)?;
        Ok(OwnerRows {
            fields,
            enclosers,
            params,
            constraints,
            attributes,
            accessors,
            texts,
        })
    }
}

/// The rows of each assembly.
pub(crate) fn owner_rows(alloc: Global, all: &[AsmRec]) -> Result<Vec<OwnerRows>, NoMemory>
    ensures { IfOk result (λ rows. AllZip AreOwnerRows all.now rows.items) }
{
    let mut rows = Vec::new(alloc);
    for rec in all {
        let own = OwnerRows::of(alloc, rec)?;
        rows.push(own)?;
    }
    Ok(rows)
}
