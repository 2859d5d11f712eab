//! The tokens of the modifiers in an assembly's signatures.

ghost use Rattle.std.specs.Prelude.{◌≡◌, ◌++◌, OnOk, IfOk};
ghost use Rattle.std.specs.List.{flat_map};
ghost use Rattle.rules.specs.link_rules.CoreNames.{modifiers, modifiers_of, method_modifiers, member_modifiers, in_good, all_modifiers};

use il_base::world_model::{
    AsmRec, FieldRow, Known, MemberRefRow, MemberSig, MethodDefRow, MethodSpecRow, PropertyRow,
    StandAloneSigRow, TypeSpecRow,
};
use il_base::{MethodSig, NoMemory, Sig};
use std::alloc::Global;

/// Appends the tokens of the modifiers in a type.
#[cycle(walking)]
#[tactic(auto, using(crate::proofs::lemmas::core_names::Layers::layers))]
fn in_type(sig: &Sig, tokens: &mut Vec<u32>) -> Result<(), NoMemory>
    ensures { OnOk result (tokens.new.items ≡ tokens.old.items ++ modifiers sig.now) }
{
    match sig {
        Sig::Prim(_) => Ok(()),
        Sig::Named { .. } => Ok(()),
        Sig::Array(inner) => in_type(inner.get(), tokens),
        Sig::ByRef(inner) => in_type(inner.get(), tokens),
        Sig::Inst { args, .. } => in_types(args.as_slice(), tokens),
        Sig::Var(_) => Ok(()),
        Sig::MVar(_) => Ok(()),
        Sig::Mod { token, inner, .. } => {
            tokens.push(*token)?;
            in_type(inner.get(), tokens)?;
            Ok(())
        }
        Sig::Pinned(inner) => in_type(inner.get(), tokens),
    }
}

/// Appends the tokens of the modifiers in some types.
#[cycle(walking)]
#[tactic(auto, unfolding(rules::specs::link_rules::CoreNames::modifiers_of))]
fn in_types(sigs: &[Sig], tokens: &mut Vec<u32>) -> Result<(), NoMemory>
    ensures { OnOk result (tokens.new.items ≡ tokens.old.items ++ modifiers_of sigs.now) }
{
    for sig in sigs {
        in_type(sig, tokens)?;
    }
    Ok(())
}

fn in_method(sig: &MethodSig, tokens: &mut Vec<u32>) -> Result<(), NoMemory>
    ensures { OnOk result (tokens.new.items ≡ tokens.old.items ++ method_modifiers sig.now) }
{
    in_type(&sig.ret, tokens)?;
    in_types(sig.params.as_slice(), tokens)
}

fn in_member(sig: &MemberSig, tokens: &mut Vec<u32>) -> Result<(), NoMemory>
    ensures { OnOk result (tokens.new.items ≡ tokens.old.items ++ member_modifiers sig.now) }
{
    match sig {
        MemberSig::Field(sig) => in_type(sig, tokens),
        MemberSig::Method(sig) => in_method(sig, tokens),
    }
}

fn in_fields(rows: &[FieldRow], tokens: &mut Vec<u32>) -> Result<(), NoMemory>
    ensures { OnOk result (tokens.new.items ≡ tokens.old.items ++ flat_map (λ r. in_good modifiers r.signature) rows.now) }
{
    for row in rows {
        if let Known::Good(sig) = &row.signature {
            in_type(sig, tokens)?;
        }
    }
    Ok(())
}

fn in_methods(rows: &[MethodDefRow], tokens: &mut Vec<u32>) -> Result<(), NoMemory>
    ensures { OnOk result (tokens.new.items ≡ tokens.old.items ++ flat_map (λ r. in_good method_modifiers r.signature) rows.now) }
{
    for row in rows {
        if let Known::Good(sig) = &row.signature {
            in_method(sig, tokens)?;
        }
    }
    Ok(())
}

fn in_members(rows: &[MemberRefRow], tokens: &mut Vec<u32>) -> Result<(), NoMemory>
    ensures { OnOk result (tokens.new.items ≡ tokens.old.items ++ flat_map (λ r. in_good member_modifiers r.signature) rows.now) }
{
    for row in rows {
        if let Known::Good(sig) = &row.signature {
            in_member(sig, tokens)?;
        }
    }
    Ok(())
}

fn in_locals(rows: &[StandAloneSigRow], tokens: &mut Vec<u32>) -> Result<(), NoMemory>
    ensures { OnOk result (tokens.new.items ≡ tokens.old.items ++ flat_map (λ r. in_good modifiers_of r.signature) rows.now) }
{
    for row in rows {
        if let Known::Good(sigs) = &row.signature {
            in_types(sigs.as_slice(), tokens)?;
        }
    }
    Ok(())
}

fn in_properties(rows: &[PropertyRow], tokens: &mut Vec<u32>) -> Result<(), NoMemory>
    ensures { OnOk result (tokens.new.items ≡ tokens.old.items ++ flat_map (λ r. in_good method_modifiers r.signature) rows.now) }
{
    for row in rows {
        if let Known::Good(sig) = &row.signature {
            in_method(sig, tokens)?;
        }
    }
    Ok(())
}

fn in_specs(rows: &[TypeSpecRow], tokens: &mut Vec<u32>) -> Result<(), NoMemory>
    ensures { OnOk result (tokens.new.items ≡ tokens.old.items ++ flat_map (λ r. in_good modifiers r.signature) rows.now) }
{
    for row in rows {
        if let Known::Good(sig) = &row.signature {
            in_type(sig, tokens)?;
        }
    }
    Ok(())
}

fn in_instances(rows: &[MethodSpecRow], tokens: &mut Vec<u32>) -> Result<(), NoMemory>
    ensures { OnOk result (tokens.new.items ≡ tokens.old.items ++ flat_map (λ r. in_good modifiers_of r.instantiation) rows.now) }
{
    for row in rows {
        if let Known::Good(sigs) = &row.instantiation {
            in_types(sigs.as_slice(), tokens)?;
        }
    }
    Ok(())
}

/// The tokens of the modifiers in the signatures of an assembly that have a reading, table by table, each as often as it
/// stands there.
#[tactic(auto, unfolding(rules::specs::link_rules::CoreNames::all_modifiers))]
pub(crate) fn modifiers_in(alloc: Global, rec: &AsmRec) -> Result<Vec<u32>, NoMemory>
    ensures { IfOk result (λ tokens. tokens.items ≡ all_modifiers rec.now) }
{
    let mut tokens = Vec::new(alloc);
    in_fields(rec.field.as_slice(), &mut tokens)?;
    in_methods(rec.method_def.as_slice(), &mut tokens)?;
    in_members(rec.member_ref.as_slice(), &mut tokens)?;
    in_locals(rec.stand_alone_sig.as_slice(), &mut tokens)?;
    in_properties(rec.property.as_slice(), &mut tokens)?;
    in_specs(rec.type_spec.as_slice(), &mut tokens)?;
    in_instances(rec.method_spec.as_slice(), &mut tokens)?;
    Ok(tokens)
}
