//! The texts that `ldstr` names in bodies (III.4.16), by a flag for each offset of `#US`.

ghost use Rattle.std.specs.Prelude.{◌≡◌, ◌≤◌, length, IfOk, OnOk};
ghost use Rattle.il_base.specs.declared.cli_format.stream.StreamName.TheVariants.{UserStrings};
ghost use Rattle.il_base.specs.cli_format.Image.{metadata_of};
ghost use Rattle.il_base.specs.cli_format.Streams.{heap};
ghost use Rattle.rules.specs.record_format.Texts as texts;
ghost use Rattle.rules.specs.record_format.Texts.{and_text};
ghost use Rattle.world_reader.specs.user_strings.Marks.{marked_at, marked_by_operand, marked_by, marked_in, marked_body, marked, marks_of, texts_marked};

use crate::cell_reader::Assembly;
use il_base::world_model::{Known, MethodDefRow, UserText};
use il_base::{Body, Form, Instr, NoMemory, Operand, Seq, Units};
use std::alloc::Global;

/// The high byte of a token of a text.
const USER_STRING: u32 = 0x7000_0000;

/// How many offsets a token can have.
const OFFSETS: usize = 0x100_0000;

/// The UTF-16 units of an item, whose last byte isn't one of a unit.
fn units_of(alloc: Global, item: &[u8]) -> Result<Units, NoMemory>
    ensures { IfOk result (λ u. u ≡ texts.units_of item.now) }
{
    let mut units = Seq::new(alloc);
    for i in 0..item.len() / 2 {
        let low = item[2 * i] as u16;
        let high = item[2 * i + 1] as u16;
        units.push(low + 256 * high)?;
    }
    Ok(units)
}

/// The text of an item at an offset. None where the item has an even number of bytes that isn't 0.
fn text_of_item(alloc: Global, at: u32, item: &[u8]) -> Result<Option<UserText>, NoMemory>
    requires { at ≤ 16777216 }
    ensures { IfOk result (λ t. t ≡ texts.text_of_item at item.now) }
{
    if !item.is_empty() && item.len() % 2 == 0 {
        return Ok(None);
    }
    let text = units_of(alloc, item)?;
    Ok(Some(UserText {
        token: USER_STRING + at,
        text,
    }))
}

/// The text at an offset of `#US`.
#[tactic(auto, unfolding(rules::specs::record_format::Texts::user_text_at))]
fn text_at(alloc: Global, file: &Assembly, at: u32) -> Result<Option<UserText>, NoMemory>
    requires { at ≤ 16777216 }
    ensures { IfOk result (λ t. t ≡ texts.user_text_at (heap (metadata_of file.now) UserStrings) at) }
{
    match file.user_string(at) {
        None => Ok(None),
        Some(item) => text_of_item(alloc, at, item),
    }
}

/// Marks an offset, if it has a flag.
fn mark_at(marks: &mut Vec<bool>, at: u32)
    ensures { marks.new.items ≡ marked_at marks.old.items at }
{
    let at = at as usize;
    if at < marks.len() {
        marks[at] = true;
    }
}

/// Marks the offset of a token of a text.
fn mark_operand(marks: &mut Vec<bool>, operand: &Operand)
    ensures { marks.new.items ≡ marked_by_operand marks.old.items operand.now }
{
    match operand {
        Operand::Token(token) => {
            if USER_STRING <= *token {
                mark_at(marks, *token - USER_STRING);
            }
        }
        _ => {}
    }
}

/// Whether an instruction loads a text.
fn is_ldstr(form: Form) -> bool
    ensures { result ≡ texts.is_ldstr form }
{
    form == Form::LdStr
}

/// Marks the offset of the text that an instruction loads.
#[tactic(auto, unfolding(crate::specs::user_strings::Marks::marked_by))]
fn mark(marks: &mut Vec<bool>, i: &Instr)
    ensures { marks.new.items ≡ marked_by marks.old.items i.now }
{
    if is_ldstr(i.form) {
        mark_operand(marks, &i.operand);
    }
}

/// Marks what the instructions load.
fn mark_code(marks: &mut Vec<bool>, code: &[Instr])
    ensures { marks.new.items ≡ marked_in marks.old.items code.now }
{
    for i in code {
        mark(marks, i);
    }
}

/// Marks what a body loads.
fn mark_body(marks: &mut Vec<bool>, body: &Option<Known<Body>>)
    ensures { marks.new.items ≡ marked_body marks.old.items body.now }
{
    match body {
        Some(Known::Good(body)) => mark_code(marks, body.code.as_slice()),
        Some(Known::Bad(_)) => {}
        None => {}
    }
}

/// Marks what the bodies load.
fn mark_all(marks: &mut Vec<bool>, methods: &[MethodDefRow])
    ensures { marks.new.items ≡ marked marks.old.items methods.now }
{
    for m in methods {
        mark_body(marks, &m.body);
    }
}

/// The flags of the offsets below a number.
fn marks_of(alloc: Global, count: usize, methods: &[MethodDefRow]) -> Result<Vec<bool>, NoMemory>
    ensures { IfOk result (λ marks. marks.items ≡ marks_of count methods.now) }
{
    let mut marks = vec![in alloc; false; count]?;
    mark_all(&mut marks, methods);
    Ok(marks)
}

/// Appends a text to others, if there is one.
fn put(texts: &mut Seq<UserText>, text: Option<UserText>) -> Result<(), NoMemory>
    ensures { OnOk result (texts.new ≡ and_text texts.old text) }
{
    match text {
        None => Ok(()),
        Some(text) => texts.push(text),
    }
}

/// The texts at the offsets that are marked.
#[tactic(auto, using(crate::proofs::lemmas::user_strings::Marks::marking))]
fn texts_marked(alloc: Global, file: &Assembly, marks: &[bool]) -> Result<Seq<UserText>, NoMemory>
    requires { length marks.now ≤ 16777216 }
    ensures { IfOk result (λ t. t ≡ texts_marked (heap (metadata_of file.now) UserStrings) marks.now (length marks.now)) }
{
    let mut texts = Seq::new(alloc);
    for at in 0..marks.len() {
        if marks[at] {
            let text = text_at(alloc, file, at as u32)?;
            put(&mut texts, text)?;
        }
    }
    Ok(texts)
}

/// The texts that `ldstr` names in the bodies, by their offset in `#US`, each once.
pub fn texts_of(
    alloc: Global,
    file: &Assembly,
    methods: &[MethodDefRow],
) -> Result<Seq<UserText>, NoMemory>
    ensures { IfOk result (λ t. t ≡ texts.all_texts (heap (metadata_of file.now) UserStrings) methods.now) }
{
    let count = file.user_strings().len().min(OFFSETS);
    let marks = marks_of(alloc, count, methods)?;
    texts_marked(alloc, file, marks.as_slice())
}
