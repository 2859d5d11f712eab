//! The types that the instructions of a method make and show (III.4.21).

ghost use Rattle.std.specs.Prelude.{◌≡◌, ◌++◌, map, OnOk};
ghost use Rattle.std.specs.List.{flat_map};
ghost use Rattle.il_base.specs.declared.body.Operand.TheVariants as Operand;
ghost use Rattle.rules.specs.link_rules.Signatures.{token_type};
ghost use Rattle.rules.specs.mark_rules.Facts.Fact.{shown};
ghost use Rattle.rules.specs.mark_rules.Naming.{of_known, method_named};
ghost use Rattle.rules.specs.mark_rules.Calls.{code_of, makes_type, makes_by, made_in, makes};
ghost use Rattle.rules.specs.mark_rules.Shown.{known_types, made_types, handled, shown_by, shown_in, shown_code};
ghost use Rattle.mark_parts.specs.mark_tables.Assemblies.{recs_of, place_of, rec_of, all_of, IsAssembly, IsMarker};
ghost use Rattle.mark_items.specs.mark_needs.Forms.{made_as, shown_as};
ghost use Rattle.mark_items.specs.mark_needs.Codes.{shown_instruction};

use crate::mark_needs::forms::{Shows, shows_of};
use il_base::world_model::{AsmRec, Known, MethodDefRow, MethodUse};
use il_base::{Form, Instr, NoMemory, Operand, opcode};
use mark_parts::bodies::{has_operands, is_field_token, is_method_token};
use mark_parts::mark_facts::exprs::show_definition;
use mark_parts::mark_facts::facts::Facts;
use mark_parts::mark_tables::assembly::Assembly;
use mark_parts::mark_tables::marker::Marker;
use mark_parts::methods::is_read;
use mark_parts::tokens::method_link;
use rules::link_rules::RowAt;
use type_tables::member_search::bases::owner_of;

/// The instructions of a method that have operands.
#[tactic(auto, using(crate::proofs::lemmas::mark_needs::Lists::none_more))]
fn code_of<'a>(rec: &AsmRec, m: &'a MethodDefRow) -> &'a [Instr]
    ensures { result.now ≡ code_of rec.now m.now }
{
    match &m.body {
        None => &[],
        Some(Known::Bad(_)) => &[],
        Some(Known::Good(body)) => {
            if has_operands(rec, is_read(&m.signature), body) {
                body.code.as_slice()
            } else {
                &[]
            }
        }
    }
}

/// Makes the owner of a method instantiated.
fn make_owner(all: &[AsmRec], used: &MethodUse, facts: &mut Facts) -> Result<(), NoMemory>
    ensures { OnOk result (facts.new ≡ facts.old ++ makes_type all.now used.now) }
{
    match owner_of(all, &used.owner) {
        Ok(Some(id)) => facts.instantiate(id),
        Ok(None) => Ok(()),
        Err(error) => Err(error),
    }
}

/// Makes the owner of the method that a token names instantiated.
fn make_named(asm: &Assembly<'_>, token: u32, facts: &mut Facts) -> Result<(), NoMemory>
    requires { IsAssembly asm.now }
    ensures { OnOk result (facts.new ≡ facts.old ++ of_known (makes_type (recs_of asm.now)) (method_named (recs_of asm.now) (place_of asm.now) (rec_of asm.now) token)) }
{
    match method_link(asm, token) {
        None => Ok(()),
        Some(Known::Bad(_)) => Ok(()),
        Some(Known::Good(used)) => make_owner(asm.scope.linked.all, used, facts),
    }
}

/// Makes a type instantiated: the one of which the token's instruction makes objects.
#[tactic(auto, unfolding(crate::specs::mark_needs::Forms::made_as))]
fn make_as(asm: &Assembly<'_>, shows: Shows, token: u32, facts: &mut Facts) -> Result<(), NoMemory>
    requires { IsAssembly asm.now }
    ensures { OnOk result (facts.new ≡ facts.old ++ made_as (recs_of asm.now) (place_of asm.now) (rec_of asm.now) shows token) }
{
    match shows {
        Shows::Owner => make_named(asm, token, facts),
        Shows::Operand => Ok(()),
        Shows::Handle => Ok(()),
        Shows::Constrained => Ok(()),
        Shows::Nothing => Ok(()),
    }
}

/// Makes a type instantiated: the one of which an instruction with a token makes objects.
fn make_by(asm: &Assembly<'_>, form: Form, token: u32, facts: &mut Facts) -> Result<(), NoMemory>
    requires { IsAssembly asm.now }
    ensures { OnOk result (facts.new ≡ facts.old ++ makes_by (recs_of asm.now) (place_of asm.now) (rec_of asm.now) form (Operand.Token token)) }
{
    let shows = shows_of(form);
    make_as(asm, shows, token, facts)?;
    Ok(())
}

/// Makes a type instantiated: the one of which an instruction makes objects.
#[tactic(auto, using(crate::proofs::lemmas::mark_needs::FormCases::tokenless, crate::proofs::lemmas::mark_needs::Lists::none_more))]
fn make_instruction(asm: &Assembly<'_>, instr: &Instr, facts: &mut Facts) -> Result<(), NoMemory>
    requires { IsAssembly asm.now }
    ensures { OnOk result (facts.new ≡ facts.old ++ makes_by (recs_of asm.now) (place_of asm.now) (rec_of asm.now) instr.now.form instr.now.operand) }
{
    match &instr.operand {
        Operand::Token(token) => make_by(asm, instr.form, *token, facts),
        Operand::None => Ok(()),
        Operand::Number(_) => Ok(()),
        Operand::Slot(_) => Ok(()),
        Operand::Target(_) => Ok(()),
        Operand::Targets(_) => Ok(()),
    }
}

/// Makes the types instantiated of which a method's code makes objects.
fn make_in(asm: &Assembly<'_>, m: &MethodDefRow, facts: &mut Facts) -> Result<(), NoMemory>
    requires { IsAssembly asm.now }
    ensures { OnOk result (facts.new ≡ facts.old ++ made_in (recs_of asm.now) (place_of asm.now) (rec_of asm.now) m.now) }
{
    for instr in code_of(asm.scope.rec, m) {
        make_instruction(asm, instr, facts)?;
    }
    Ok(())
}

/// Adds the types that a marked method makes.
#[tactic(auto, unfolding(rules::specs::mark_rules::Calls::makes), using(crate::proofs::lemmas::mark_needs::Lists::none_more))]
pub fn add_makes(marker: &Marker<'_>, at: RowAt, facts: &mut Facts) -> Result<(), NoMemory>
    requires { IsMarker marker.now }
    ensures { OnOk result (facts.new ≡ facts.old ++ makes (all_of marker.now) at) }
{
    let Some(asm) = marker.assembly_at(at.asm) else {
        return Ok(());
    };
    let Some(m) = asm.scope.rec.method_def.get(at.row as usize) else {
        return Ok(());
    };
    make_in(&asm, m, facts)
}

/// Shows the owner of the method that a token names.
fn show_owner(asm: &Assembly<'_>, token: u32, facts: &mut Facts) -> Result<(), NoMemory>
    requires { IsAssembly asm.now }
    ensures { OnOk result (facts.new ≡ facts.old ++ map shown (made_types (method_named (recs_of asm.now) (place_of asm.now) (rec_of asm.now) token))) }
{
    match method_link(asm, token) {
        None => Ok(()),
        Some(Known::Bad(_)) => Ok(()),
        Some(Known::Good(used)) => show_definition(facts, &used.owner),
    }
}

/// Shows the type that a token names.
fn show_type(asm: &Assembly<'_>, token: u32, facts: &mut Facts) -> Result<(), NoMemory>
    requires { IsAssembly asm.now }
    ensures { OnOk result (facts.new ≡ facts.old ++ map shown (known_types (token_type (recs_of asm.now) (place_of asm.now) (rec_of asm.now) token))) }
{
    match asm.scope.token_type(token) {
        Ok(ty) => show_definition(facts, ty),
        Err(_) => Ok(()),
    }
}

/// Shows the type that the operand of `ldtoken` names; a field or a method shows nothing.
fn show_handled(asm: &Assembly<'_>, token: u32, facts: &mut Facts) -> Result<(), NoMemory>
    requires { IsAssembly asm.now }
    ensures { OnOk result (facts.new ≡ facts.old ++ map shown (handled (recs_of asm.now) (place_of asm.now) (rec_of asm.now) token)) }
{
    if is_field_token(asm.scope.rec, token) {
        return Ok(());
    }
    if is_method_token(token) {
        return Ok(());
    }
    show_type(asm, token, facts)
}

/// Shows the type that the token of an instruction shows.
#[tactic(auto, unfolding(crate::specs::mark_needs::Forms::shown_as))]
fn show_as(
    asm: &Assembly<'_>,
    code: u16,
    shows: Shows,
    token: u32,
    facts: &mut Facts,
) -> Result<(), NoMemory>
    requires { IsAssembly asm.now }
    ensures { OnOk result (facts.new ≡ facts.old ++ map shown (shown_as (recs_of asm.now) (place_of asm.now) (rec_of asm.now) code shows token)) }
{
    match shows {
        Shows::Owner => show_owner(asm, token, facts),
        Shows::Operand => show_type(asm, token, facts),
        Shows::Handle => show_handled(asm, token, facts),
        Shows::Constrained => {
            if code == opcode::CONSTRAINED {
                show_type(asm, token, facts)
            } else {
                Ok(())
            }
        }
        Shows::Nothing => Ok(()),
    }
}

/// Shows the type that an instruction with a token shows.
fn show_by(
    asm: &Assembly<'_>,
    code: u16,
    form: Form,
    token: u32,
    facts: &mut Facts,
) -> Result<(), NoMemory>
    requires { IsAssembly asm.now }
    ensures { OnOk result (facts.new ≡ facts.old ++ map shown (shown_by (recs_of asm.now) (place_of asm.now) (rec_of asm.now) code form token)) }
{
    let shows = shows_of(form);
    show_as(asm, code, shows, token, facts)?;
    Ok(())
}

/// Shows the type that an instruction shows.
#[tactic(auto, using(crate::proofs::lemmas::mark_needs::Lists::none_more))]
fn show_instruction(asm: &Assembly<'_>, instr: &Instr, facts: &mut Facts) -> Result<(), NoMemory>
    requires { IsAssembly asm.now }
    ensures { OnOk result (facts.new ≡ facts.old ++ map shown (shown_instruction (recs_of asm.now) (place_of asm.now) (rec_of asm.now) instr.now)) }
{
    match &instr.operand {
        Operand::Token(token) => show_by(asm, instr.opcode, instr.form, *token, facts),
        Operand::None => Ok(()),
        Operand::Number(_) => Ok(()),
        Operand::Slot(_) => Ok(()),
        Operand::Target(_) => Ok(()),
        Operand::Targets(_) => Ok(()),
    }
}

/// Shows the types that the instructions of a method show.
pub(crate) fn show_code(
    asm: &Assembly<'_>,
    m: &MethodDefRow,
    facts: &mut Facts,
) -> Result<(), NoMemory>
    requires { IsAssembly asm.now }
    ensures { OnOk result (facts.new ≡ facts.old ++ map shown (shown_code (recs_of asm.now) (place_of asm.now) (rec_of asm.now) m.now)) }
{
    for instr in code_of(asm.scope.rec, m) {
        show_instruction(asm, instr, facts)?;
    }
    Ok(())
}
