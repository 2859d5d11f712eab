ghost use Rattle.std.specs.Prelude.{◌≡◌};
ghost use Rattle.il_base.specs.body_grammar.Opcodes.{kind_in, kind_of, or_else, is_float, variables, constants, branches, arithmetic, objects, arrays, indirect};

use il_base::Form;
use il_base::body_grammar::Inline;

/// Arguments and locals.
#[tactic(auto, unfolding(il_base::specs::body_grammar::Opcodes::variables))]
fn variable(opcode: u16) -> Option<(Form, Inline)>
    ensures { result ≡ kind_in variables opcode }
{
    match opcode {
        0x02..=0x05 => Some((Form::LdArg, Inline::FixedSlot(0x02))),
        0x0e => Some((Form::LdArg, Inline::ShortInlineVar)),
        0xfe09 => Some((Form::LdArg, Inline::InlineVar)),
        0x0f => Some((Form::LdArgA, Inline::ShortInlineVar)),
        0xfe0a => Some((Form::LdArgA, Inline::InlineVar)),
        0x10 => Some((Form::StArg, Inline::ShortInlineVar)),
        0xfe0b => Some((Form::StArg, Inline::InlineVar)),
        0x06..=0x09 => Some((Form::LdLoc, Inline::FixedSlot(0x06))),
        0x11 => Some((Form::LdLoc, Inline::ShortInlineVar)),
        0xfe0c => Some((Form::LdLoc, Inline::InlineVar)),
        0x12 => Some((Form::LdLocA, Inline::ShortInlineVar)),
        0xfe0d => Some((Form::LdLocA, Inline::InlineVar)),
        0x0a..=0x0d => Some((Form::StLoc, Inline::FixedSlot(0x0a))),
        0x13 => Some((Form::StLoc, Inline::ShortInlineVar)),
        0xfe0e => Some((Form::StLoc, Inline::InlineVar)),
        _ => None,
    }
}

/// Constants, and what only moves the stack.
#[tactic(auto, unfolding(il_base::specs::body_grammar::Opcodes::constants))]
fn constant(opcode: u16) -> Option<(Form, Inline)>
    ensures { result ≡ kind_in constants opcode }
{
    match opcode {
        0x00 => Some((Form::Nop, Inline::InlineNone)),
        0x14 => Some((Form::LdNull, Inline::InlineNone)),
        0x15..=0x1e => Some((Form::LdI4, Inline::FixedNumber(0x16))),
        0x1f => Some((Form::LdI4, Inline::ShortInlineI)),
        0x20 => Some((Form::LdI4, Inline::InlineI)),
        0x21 => Some((Form::LdI8, Inline::InlineI8)),
        0x72 => Some((Form::LdStr, Inline::InlineTok)),
        0xd0 => Some((Form::LdToken, Inline::InlineTok)),
        0x25 => Some((Form::Dup, Inline::InlineNone)),
        0x26 => Some((Form::Pop, Inline::InlineNone)),
        _ => None,
    }
}

/// Branches.
#[tactic(auto, unfolding(il_base::specs::body_grammar::Opcodes::branches))]
fn branch(opcode: u16) -> Option<(Form, Inline)>
    ensures { result ≡ kind_in branches opcode }
{
    match opcode {
        0x2b => Some((Form::Br, Inline::ShortInlineBrTarget)),
        0x38 => Some((Form::Br, Inline::InlineBrTarget)),
        0x2c..=0x37 => Some((Form::BrIf, Inline::ShortInlineBrTarget)),
        0x39..=0x44 => Some((Form::BrIf, Inline::InlineBrTarget)),
        0x45 => Some((Form::Switch, Inline::InlineSwitch)),
        0xdd => Some((Form::Leave, Inline::InlineBrTarget)),
        0xde => Some((Form::Leave, Inline::ShortInlineBrTarget)),
        0xdc => Some((Form::EndFinally, Inline::InlineNone)),
        _ => None,
    }
}

/// Arithmetic.
#[tactic(auto, unfolding(il_base::specs::body_grammar::Opcodes::arithmetic))]
fn operation(opcode: u16) -> Option<(Form, Inline)>
    ensures { result ≡ kind_in arithmetic opcode }
{
    match opcode {
        0x58..=0x64 | 0xd6..=0xdb | 0xfe01..=0xfe05 => Some((Form::Binary, Inline::InlineNone)),
        0x65..=0x66 => Some((Form::Unary, Inline::InlineNone)),
        0x67..=0x6a | 0x6d..=0x6e | 0x82..=0x8b => Some((Form::Convert, Inline::InlineNone)),
        0xb3..=0xba | 0xd1..=0xd5 | 0xe0 => Some((Form::Convert, Inline::InlineNone)),
        _ => None,
    }
}

/// Calls, exceptions, objects, and the prefixes.
#[tactic(auto, unfolding(il_base::specs::body_grammar::Opcodes::objects))]
fn object(opcode: u16) -> Option<(Form, Inline)>
    ensures { result ≡ kind_in objects opcode }
{
    match opcode {
        0x28 | 0x6f => Some((Form::Call, Inline::InlineTok)),
        0x2a => Some((Form::Ret, Inline::InlineNone)),
        0x73 => Some((Form::NewObj, Inline::InlineTok)),
        0x7a | 0xfe1a => Some((Form::Throw, Inline::InlineNone)),
        0x74..=0x75 => Some((Form::Cast, Inline::InlineTok)),
        0x8c => Some((Form::Box, Inline::InlineTok)),
        0x79 | 0xa5 => Some((Form::Unbox, Inline::InlineTok)),
        0x7b..=0x80 => Some((Form::Field, Inline::InlineTok)),
        0xfe13 => Some((Form::Prefix, Inline::InlineNone)),
        0xfe16 => Some((Form::Prefix, Inline::InlineTok)),
        0xfe1e => Some((Form::Prefix, Inline::InlineNone)),
        _ => None,
    }
}

/// Arrays.
#[tactic(auto, unfolding(il_base::specs::body_grammar::Opcodes::arrays))]
fn array(opcode: u16) -> Option<(Form, Inline)>
    ensures { result ≡ kind_in arrays opcode }
{
    match opcode {
        0x8d => Some((Form::NewArr, Inline::InlineTok)),
        0x8e => Some((Form::Elem, Inline::InlineNone)),
        0x8f => Some((Form::Elem, Inline::InlineTok)),
        0x90..=0x97 | 0x9a..=0x9f | 0xa2 => Some((Form::Elem, Inline::InlineNone)),
        0xa3..=0xa4 => Some((Form::Elem, Inline::InlineTok)),
        _ => None,
    }
}

/// What a managed reference leads to.
#[tactic(auto, unfolding(il_base::specs::body_grammar::Opcodes::indirect))]
fn reference(opcode: u16) -> Option<(Form, Inline)>
    ensures { result ≡ kind_in indirect opcode }
{
    match opcode {
        0x46..=0x4d | 0x50..=0x55 => Some((Form::Indirect, Inline::InlineNone)),
        0x70..=0x71 | 0x81 => Some((Form::Indirect, Inline::InlineTok)),
        0xdf => Some((Form::Indirect, Inline::InlineNone)),
        0xfe15 => Some((Form::Indirect, Inline::InlineTok)),
        _ => None,
    }
}

/// The first of two.
fn either(first: Option<(Form, Inline)>, other: Option<(Form, Inline)>) -> Option<(Form, Inline)>
    ensures { result ≡ or_else first other }
{
    match first {
        None => other,
        Some(kind) => Some(kind),
    }
}

/// The form and the inline argument of an opcode, None where it has no reading.
#[tactic(auto, unfolding(il_base::specs::body_grammar::Opcodes::kind_of))]
pub fn kind(opcode: u16) -> Option<(Form, Inline)>
    ensures { result ≡ kind_of opcode }
{
    let rest = either(array(opcode), reference(opcode));
    let rest = either(operation(opcode), either(object(opcode), rest));
    let rest = either(constant(opcode), either(branch(opcode), rest));
    either(variable(opcode), rest)
}

/// Whether the opcode is one of floating-point numbers.
#[tactic(auto, unfolding(il_base::specs::body_grammar::Opcodes::is_float))]
pub fn float(opcode: u16) -> bool
    ensures { result ≡ is_float opcode }
{
    matches!(
        opcode,
        0x22 | 0x23
            | 0x4e
            | 0x4f
            | 0x56
            | 0x57
            | 0x6b
            | 0x6c
            | 0x76
            | 0x98
            | 0x99
            | 0xa0
            | 0xa1
            | 0xc3
    )
}
