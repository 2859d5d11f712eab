//! What an instruction takes from the evaluation stack and puts there.

ghost use Rattle.std.specs.Prelude.{◌≡◌, IfOk};
ghost use Rattle.std.specs.Option.{option_map};
ghost use Rattle.rules.specs.flow_rules.Counts.{one_if, call_counts, creation_counts, is_truth_test, field_counts, is_element_store, element_counts, is_indirect_store, indirect_counts, plain_counts, counts_by, counts_of};
ghost use Rattle.value_flow.specs.body_graph.Methods.{IsHere};

use crate::body_graph::methods::Method;
use crate::body_graph::operands::{called_operand, is_good_operand};
use il_base::{Form, Instr, NoMemory, Operand, opcode};
use rules::flow_rules::Called;

/// Values taken, and values put there after that.
pub type Counts = (u32, u32);

fn one_if(test: bool) -> u32
    ensures { result ≡ one_if test }
{
    if test { 1 } else { 0 }
}

fn call_counts(c: Called) -> Result<Counts, NoMemory>
    ensures { IfOk result (λ counts. counts ≡ call_counts c) }
{
    let Ok(params) = u32::try_from(c.params) else {
        return Err(NoMemory);
    };
    match one_if(c.this).checked_add(params) {
        None => Err(NoMemory),
        Some(pops) => Ok((pops, one_if(c.returns))),
    }
}

fn creation_counts(c: Called) -> Result<Counts, NoMemory>
    ensures { IfOk result (λ counts. counts ≡ creation_counts c) }
{
    let Ok(params) = u32::try_from(c.params) else {
        return Err(NoMemory);
    };
    Ok((params, 1))
}

/// Whether a branch takes one value: `brtrue`, `brfalse` (III.3.17, III.3.18).
fn is_truth_test(n: u16) -> bool
    ensures { result ≡ is_truth_test n }
{
    n == opcode::BRTRUE || n == opcode::BRTRUE_S || n == opcode::BRFALSE || n == opcode::BRFALSE_S
}

fn field_counts(n: u16) -> Counts
    ensures { result ≡ field_counts n }
{
    if n == opcode::LDFLD {
        (1, 1)
    } else if n == opcode::LDFLDA {
        (1, 1)
    } else if n == opcode::STFLD {
        (2, 0)
    } else if n == opcode::STSFLD {
        (1, 0)
    } else {
        (0, 1)
    }
}

fn is_element_store(n: u16) -> bool
    ensures { result ≡ is_element_store n }
{
    opcode::STELEM_I <= n && n <= opcode::STELEM_REF || n == opcode::STELEM
}

fn element_counts(n: u16) -> Counts
    ensures { result ≡ element_counts n }
{
    if n == opcode::LDLEN {
        (1, 1)
    } else if is_element_store(n) {
        (3, 0)
    } else {
        (2, 1)
    }
}

fn is_indirect_store(n: u16) -> bool
    ensures { result ≡ is_indirect_store n }
{
    opcode::STIND_REF <= n && n <= opcode::STIND_I8
        || n == opcode::STIND_I
        || n == opcode::STOBJ
        || n == opcode::CPOBJ
}

fn indirect_counts(n: u16) -> Counts
    ensures { result ≡ indirect_counts n }
{
    if n == opcode::INITOBJ {
        (1, 0)
    } else if is_indirect_store(n) {
        (2, 0)
    } else {
        (1, 1)
    }
}

/// The counts of the forms that name no method.
#[tactic(auto, unfolding(rules::specs::flow_rules::Counts::plain_counts))]
pub fn plain_counts(returns: bool, form: Form, n: u16) -> Counts
    ensures { result ≡ plain_counts returns form n }
{
    match form {
        Form::Nop
        | Form::Br
        | Form::Leave
        | Form::EndFinally
        | Form::Call
        | Form::NewObj
        | Form::Prefix => (0, 0),
        Form::LdArg
        | Form::LdArgA
        | Form::LdLoc
        | Form::LdLocA
        | Form::LdNull
        | Form::LdI4
        | Form::LdI8
        | Form::LdStr
        | Form::LdToken => (0, 1),
        Form::StArg | Form::StLoc | Form::Pop | Form::Switch => (1, 0),
        Form::Dup => (1, 2),
        Form::BrIf => { if is_truth_test(n) { (1, 0) } else { (2, 0) } }
        Form::Binary => (2, 1),
        Form::Unary | Form::Convert | Form::Cast | Form::Box | Form::Unbox | Form::NewArr => (1, 1),
        Form::Ret => (one_if(returns), 0),
        Form::Throw => { if n == opcode::THROW { (1, 0) } else { (0, 0) } }
        Form::Field => field_counts(n),
        Form::Elem => element_counts(n),
        Form::Indirect => indirect_counts(n),
    }
}

fn of_call(called: Option<Called>) -> Result<Option<Counts>, NoMemory>
    ensures { IfOk result (λ counts. counts ≡ option_map call_counts called) }
{
    match called {
        None => Ok(None),
        Some(c) => match call_counts(c) {
            Err(error) => Err(error),
            Ok(counts) => Ok(Some(counts)),
        },
    }
}

fn of_creation(called: Option<Called>) -> Result<Option<Counts>, NoMemory>
    ensures { IfOk result (λ counts. counts ≡ option_map creation_counts called) }
{
    match called {
        None => Ok(None),
        Some(c) => match creation_counts(c) {
            Err(error) => Err(error),
            Ok(counts) => Ok(Some(counts)),
        },
    }
}

fn counts_by(
    m: &Method<'_>,
    form: Form,
    n: u16,
    operand: &Operand,
) -> Result<Option<Counts>, NoMemory>
    requires { IsHere m.now }
    ensures { IfOk result (λ counts. counts ≡ counts_by m.now.world.now.recs m.now.asm m.now.rec.now m.now.own.returns form n operand.now) }
{
    match form {
        Form::Call => match called_operand(m, operand) {
            Err(error) => Err(error),
            Ok(called) => of_call(called),
        },
        Form::NewObj => match called_operand(m, operand) {
            Err(error) => Err(error),
            Ok(called) => of_creation(called),
        },
        Form::Nop
        | Form::LdArg
        | Form::LdArgA
        | Form::StArg
        | Form::LdLoc
        | Form::LdLocA
        | Form::StLoc
        | Form::LdNull
        | Form::LdI4
        | Form::LdI8
        | Form::LdStr
        | Form::Dup
        | Form::Pop
        | Form::Br
        | Form::BrIf
        | Form::Switch
        | Form::Leave
        | Form::EndFinally
        | Form::Binary
        | Form::Unary
        | Form::Convert
        | Form::Ret
        | Form::Throw
        | Form::Cast
        | Form::Box
        | Form::Unbox
        | Form::Field
        | Form::NewArr
        | Form::Elem
        | Form::Indirect
        | Form::LdToken
        | Form::Prefix => Ok(Some(plain_counts(m.own.returns, form, n))),
    }
}

/// What an instruction of a method takes and puts; None where its operand names nothing, or a method whose signature has no
/// reading.
#[tactic(auto, unfolding(rules::specs::flow_rules::Counts::counts_of))]
pub(crate) fn counts_of(m: &Method<'_>, i: &Instr) -> Result<Option<Counts>, NoMemory>
    requires { IsHere m.now }
    ensures { IfOk result (λ counts. counts ≡ counts_of m.now.world.now.recs m.now.asm m.now.rec.now m.now.own.returns i.now) }
{
    match is_good_operand(m, i.form, &i.operand) {
        Err(error) => Err(error),
        Ok(false) => Ok(None),
        Ok(true) => counts_by(m, i.form, i.opcode, &i.operand),
    }
}
