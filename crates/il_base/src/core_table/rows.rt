//! The Field and MethodDef rows of the core record (II.22.15, II.22.26).

ghost use Rattle.std.specs.Prelude.{◌≡◌, ◌++◌, IfOk, OnOk};
ghost use Rattle.il_base.specs.declared.sig.Sig.TheVariants.{Array};
ghost use Rattle.il_base.specs.core_table.Record.{sig_of, params_of, field_row, method_row, all_fields, all_methods, field_rows, method_rows};

use crate::core_table::shape::{CoreField, CoreMethod, CoreParams, CoreSig, CoreType};
use crate::world_model::{FieldRow, Known, MethodDefRow};
use crate::{Boxed, MethodSig, NoMemory, Seq, Sig, has_flag, method_flags};
use std::alloc::Global;

fn vector_of(alloc: Global, element: Sig) -> Result<Sig, NoMemory>
    ensures { IfOk result (λ s. s ≡ Array element) }
{
    Ok(Sig::Array(Boxed::new(alloc, element)?))
}

fn sig_of(alloc: Global, sig: CoreSig) -> Result<Sig, NoMemory>
    ensures { IfOk result (λ s. s ≡ sig_of sig) }
{
    match sig {
        CoreSig::Prim(code) => Ok(Sig::Prim(code)),
        CoreSig::Class(token) => Ok(Sig::Named {
            value: false,
            token,
        }),
        CoreSig::Value(token) => Ok(Sig::Named { value: true, token }),
        CoreSig::Prims(code) => vector_of(alloc, Sig::Prim(code)),
        CoreSig::Classes(token) => vector_of(
            alloc,
            Sig::Named {
                value: false,
                token,
            },
        ),
        CoreSig::MVar(n) => Ok(Sig::MVar(n)),
    }
}

#[tactic(auto, unfolding(crate::specs::core_table::Record::params_of))]
fn params_of(alloc: Global, params: CoreParams) -> Result<Seq<Sig>, NoMemory>
    ensures { IfOk result (λ sigs. sigs ≡ params_of params) }
{
    let sigs = match params {
        CoreParams::Zero => Vec::new(alloc),
        CoreParams::One(a) => vec![in alloc; sig_of(alloc, a)?]?,
        CoreParams::Two(a, b) => vec![in alloc; sig_of(alloc, a)?, sig_of(alloc, b)?]?,
        CoreParams::Three(a, b, c) => {
            vec![in alloc; sig_of(alloc, a)?, sig_of(alloc, b)?, sig_of(alloc, c)?]?
        }
        CoreParams::Four(a, b, c, d) => {
            vec![in alloc;
                sig_of(alloc, a)?,
                sig_of(alloc, b)?,
                sig_of(alloc, c)?,
                sig_of(alloc, d)?,
            ]?
        }
    };
    Ok(Seq::from_vec(sigs))
}

#[tactic(auto, unfolding(crate::specs::core_table::Record::field_row))]
fn field_row(alloc: Global, field: &CoreField) -> Result<FieldRow, NoMemory>
    ensures { IfOk result (λ row. row ≡ field_row field.now) }
{
    let name = Seq::from_slice(alloc, field.name.text())?;
    let signature = sig_of(alloc, field.signature)?;
    Ok(FieldRow {
        flags: field.flags,
        name,
        signature: Known::Good(signature),
    })
}

#[tactic(auto, unfolding(crate::specs::core_table::Record::method_row, crate::specs::core_table::Record::signature_of, crate::specs::core_table::Record::is_static))]
fn method_row(alloc: Global, method: &CoreMethod) -> Result<MethodDefRow, NoMemory>
    ensures { IfOk result (λ row. row ≡ method_row method.now) }
{
    let name = Seq::from_slice(alloc, method.name.text())?;
    let ret = sig_of(alloc, method.ret)?;
    let params = params_of(alloc, method.params)?;
    let signature = MethodSig {
        this: !has_flag(method.flags, method_flags::STATIC),
        generic: method.type_params,
        ret,
        params,
    };
    Ok(MethodDefRow {
        rva: 0,
        impl_flags: 0,
        flags: method.flags,
        name,
        signature: Known::Good(signature),
        param_list_first: 1,
        param_list_end: 1,
        body: None,
        bad_at: 0,
    })
}

fn push_methods(
    alloc: Global,
    rows: &mut Seq<MethodDefRow>,
    methods: &[CoreMethod],
) -> Result<(), NoMemory>
    ensures { OnOk result (rows.new ≡ rows.old ++ method_rows methods.now) }
{
    for method in methods {
        let row = method_row(alloc, method)?;
        rows.push(row)?;
    }
    Ok(())
}

/// The MethodDef rows of these types, in order.
#[tactic(auto, unfolding(crate::specs::core_table::Record::all_methods))]
pub fn all_methods(alloc: Global, types: &[CoreType]) -> Result<Seq<MethodDefRow>, NoMemory>
    ensures { IfOk result (λ rows. rows ≡ all_methods types.now) }
{
    let mut rows = Seq::new(alloc);
    for ty in types {
        push_methods(alloc, &mut rows, ty.members.methods())?;
    }
    Ok(rows)
}

fn push_fields(
    alloc: Global,
    rows: &mut Seq<FieldRow>,
    fields: &[CoreField],
) -> Result<(), NoMemory>
    ensures { OnOk result (rows.new ≡ rows.old ++ field_rows fields.now) }
{
    for field in fields {
        let row = field_row(alloc, field)?;
        rows.push(row)?;
    }
    Ok(())
}

/// The Field rows of these types, in order.
#[tactic(auto, unfolding(crate::specs::core_table::Record::all_fields))]
pub fn all_fields(alloc: Global, types: &[CoreType]) -> Result<Seq<FieldRow>, NoMemory>
    ensures { IfOk result (λ rows. rows ≡ all_fields types.now) }
{
    let mut rows = Seq::new(alloc);
    for ty in types {
        push_fields(alloc, &mut rows, ty.members.fields())?;
    }
    Ok(rows)
}
