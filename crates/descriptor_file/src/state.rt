ghost use Rattle.std.specs.Prelude.{◌≡◌, ◌++◌, Some, None, IfOk, OnOk, IfErr, if◌then◌else◌};
ghost use Rattle.std.specs.Option.{option_map, option_copied};
ghost use Rattle.descriptor_file.specs.Grammar.{if_allowed, member_begun, assembly_ended, type_ended, start_ended, started, stopped, given_text, is_given, text_given, differ, is_complete, simple_name, preserve_of, is_required, preserved, type_root, assembly_root, kind_of, member_of, with_member, begun, ended, with_given, tag_ended, step, first_state, is_done};

use crate::root::{Root, RootMember, preserve};
use crate::rules::{closes, holds, is_attribute, kind_of, preserve_of, takes};
use crate::token::{Attribute, Element, Token};
use crate::values::up_to;
use il_base::{NoMemory, Seq, Text};
use std::alloc::Global;

/// An attribute of a tag that is read so far.
#[derive(Drop)]
pub(crate) struct Given {
    pub(crate) attribute: Attribute,
    pub(crate) text: Text,
}

/// Where content stands: before the `linker` element, in an element, or after the `linker` element.
#[derive(Clone, Copy)]
pub(crate) enum Place {
    Before,
    In(Element),
    After,
}

/// Which part of a tag comes next.
#[derive(Clone, Copy)]
pub(crate) enum Spot {
    /// Content.
    Content,
    /// An attribute or the end of a start tag, whose `<` is at a place.
    Starts(Element, u32),
    /// The end of an end tag.
    Stops,
}

/// What was read so far.
#[derive(Drop)]
pub(crate) struct State {
    pub(crate) place: Place,
    pub(crate) spot: Spot,
    /// The attributes of the start tag.
    pub(crate) given: Seq<Given>,
    /// The simple name of the assembly, and the place of its `<`.
    pub(crate) asm: Text,
    pub(crate) asm_at: u32,
    /// Whether the assembly has a type so far.
    pub(crate) has_types: bool,
    /// Whether the type has a `preserve`.
    pub(crate) preserves: bool,
    /// The type that is open.
    pub(crate) typ: Option<Root>,
    pub(crate) roots: Seq<Root>,
}

/// The text of an attribute, if it is given.
fn given_text(attribute: Attribute, given: &[Given]) -> Option<&Text>
    ensures { option_copied result ≡ given_text attribute given.now }
{
    for g in given {
        if is_attribute(attribute, g.attribute) {
            return Some(&g.text);
        }
    }
    None
}

fn is_given(attribute: Attribute, given: &[Given]) -> bool
    ensures { result ≡ is_given attribute given.now }
{
    given_text(attribute, given).is_some()
}

/// A copy of the text of an attribute; the empty text where none is given.
fn text_given(alloc: Global, attribute: Attribute, given: &[Given]) -> Result<Text, NoMemory>
    ensures { IfOk result (λ text. text ≡ text_given attribute given.now) }
{
    match given_text(attribute, given) {
        None => Ok(Seq::new(alloc)),
        Some(text) => Seq::from_slice(alloc, text.as_slice()),
    }
}

fn has_name_or_signature(given: &[Given]) -> bool
    ensures { result ≡ differ (is_given Attribute.Name given.now) (is_given Attribute.Signature given.now) }
{
    let signature = is_given(Attribute::Signature, given);
    if is_given(Attribute::Name, given) {
        !signature
    } else {
        signature
    }
}

/// Whether an element has the attributes that it needs.
fn is_complete(element: Element, given: &[Given]) -> bool
    ensures { result ≡ is_complete element given.now }
{
    match element {
        Element::Linker => true,
        Element::Assembly => is_given(Attribute::FullName, given),
        Element::Type => is_given(Attribute::FullName, given),
        Element::Method => has_name_or_signature(given),
        Element::Field => has_name_or_signature(given),
        Element::Property => is_given(Attribute::Name, given),
        Element::Event => is_given(Attribute::Name, given),
    }
}

/// The simple name in an assembly's full name: what stands before the first comma.
fn simple_name(alloc: Global, given: &[Given]) -> Result<Text, NoMemory>
    ensures { IfOk result (λ name. name ≡ simple_name (text_given Attribute.FullName given.now)) }
{
    let text = text_given(alloc, Attribute::FullName, given)?;
    let name = Seq::from_slice(alloc, &text.as_slice()[..up_to(b',', text.as_slice())])?;
    Ok(name)
}

fn is_required(given: &[Given]) -> bool
    ensures { result ≡ is_required given.now }
{
    match given_text(Attribute::Required, given) {
        None => true,
        Some(text) => text.as_slice() != b"false".as_slice(),
    }
}

fn preserved(given: &[Given]) -> u8
    ensures { result ≡ preserved (given_text Attribute.Preserve given.now) }
{
    match given_text(Attribute::Preserve, given) {
        None => preserve::ALL,
        Some(text) => preserve_of(text.as_slice()),
    }
}

/// The root of a type, before any member is listed.
fn type_root(alloc: Global, asm: &[u8], at: u32, given: &[Given]) -> Result<Root, NoMemory>
    ensures { IfOk result (λ root. root ≡ type_root asm.now at given.now) }
{
    let asm = Seq::from_slice(alloc, asm)?;
    let name = text_given(alloc, Attribute::FullName, given)?;
    Ok(Root {
        asm,
        typ: Some(name),
        required: is_required(given),
        preserve: preserved(given),
        members: Seq::new(alloc),
        at,
        source: 0,
    })
}

/// The root of an assembly of which all is kept.
fn assembly_root(alloc: Global, asm: &[u8], at: u32) -> Result<Root, NoMemory>
    ensures { IfOk result (λ root. root ≡ assembly_root asm.now at) }
{
    let asm = Seq::from_slice(alloc, asm)?;
    Ok(Root {
        asm,
        typ: None,
        required: true,
        preserve: preserve::ALL,
        members: Seq::new(alloc),
        at,
        source: 0,
    })
}

fn member_of(
    alloc: Global,
    element: Element,
    at: u32,
    given: &[Given],
) -> Result<RootMember, NoMemory>
    ensures { IfOk result (λ m. m ≡ member_of element at given.now) }
{
    let by_signature = is_given(Attribute::Signature, given);
    let attribute = if by_signature {
        Attribute::Signature
    } else {
        Attribute::Name
    };
    let text = text_given(alloc, attribute, given)?;
    Ok(RootMember {
        kind: kind_of(element),
        by_signature,
        text,
        at,
    })
}

/// Lists one member more in a type. Where nothing was said of `preserve`, the listed members alone are kept.
fn add_member(root: &mut Root, preserves: bool, member: RootMember) -> Result<(), NoMemory>
    ensures { OnOk result (root.new ≡ with_member preserves member root.old) }
{
    root.members.push(member)?;
    if !preserves {
        root.preserve = preserve::NOTHING;
    }
    Ok(())
}

impl State {
    /// Nothing is read.
    pub(crate) fn new(alloc: Global) -> State
        ensures { result ≡ first_state }
    {
        State {
            place: Place::Before,
            spot: Spot::Content,
            given: Seq::new(alloc),
            asm: Seq::new(alloc),
            asm_at: 0,
            has_types: false,
            preserves: false,
            typ: None,
            roots: Seq::new(alloc),
        }
    }

    #[tactic(auto, unfolding(crate::specs::Grammar::begun))]
    fn begin_assembly(&mut self, alloc: Global, at: u32) -> Result<(), NoMemory>
        ensures { OnOk result (self.new ≡ begun Element.Assembly at self.old) }
    {
        self.asm = simple_name(alloc, self.given.as_slice())?;
        self.asm_at = at;
        self.has_types = false;
        self.place = Place::In(Element::Assembly);
        self.spot = Spot::Content;
        Ok(())
    }

    #[tactic(auto, unfolding(crate::specs::Grammar::begun))]
    fn begin_type(&mut self, alloc: Global, at: u32) -> Result<(), NoMemory>
        ensures { OnOk result (self.new ≡ begun Element.Type at self.old) }
    {
        let root = type_root(alloc, self.asm.as_slice(), at, self.given.as_slice())?;
        self.typ = Some(root);
        self.has_types = true;
        self.preserves = is_given(Attribute::Preserve, self.given.as_slice());
        self.place = Place::In(Element::Type);
        self.spot = Spot::Content;
        Ok(())
    }

    fn begin_member(&mut self, alloc: Global, element: Element, at: u32) -> Result<(), NoMemory>
        ensures { OnOk result (self.new ≡ member_begun element at self.old) }
    {
        let member = member_of(alloc, element, at, self.given.as_slice())?;
        match self.typ.take() {
            None => {}
            Some(mut root) => {
                add_member(&mut root, self.preserves, member)?;
                self.typ = Some(root);
            }
        }
        self.place = Place::In(element);
        self.spot = Spot::Content;
        Ok(())
    }

    /// An element begins whose `<` is at `at`.
    #[tactic(auto, unfolding(crate::specs::Grammar::begun))]
    fn begin(&mut self, alloc: Global, element: Element, at: u32) -> Result<(), NoMemory>
        ensures { OnOk result (self.new ≡ begun element at self.old) }
    {
        match element {
            Element::Linker => {
                self.place = Place::In(Element::Linker);
                self.spot = Spot::Content;
                Ok(())
            }
            Element::Assembly => self.begin_assembly(alloc, at),
            Element::Type => self.begin_type(alloc, at),
            Element::Method => self.begin_member(alloc, Element::Method, at),
            Element::Field => self.begin_member(alloc, Element::Field, at),
            Element::Property => self.begin_member(alloc, Element::Property, at),
            Element::Event => self.begin_member(alloc, Element::Event, at),
        }
    }

    fn end_assembly(&mut self, alloc: Global) -> Result<(), NoMemory>
        ensures { OnOk result (self.new ≡ assembly_ended self.old) }
    {
        if !self.has_types {
            let root = assembly_root(alloc, self.asm.as_slice(), self.asm_at)?;
            self.roots.push(root)?;
        }
        self.place = Place::In(Element::Linker);
        self.spot = Spot::Content;
        Ok(())
    }

    fn end_type(&mut self) -> Result<(), NoMemory>
        ensures { OnOk result (self.new ≡ type_ended self.old) }
    {
        match self.typ.take() {
            None => {}
            Some(root) => self.roots.push(root)?,
        }
        self.place = Place::In(Element::Assembly);
        self.spot = Spot::Content;
        Ok(())
    }

    fn go_on_in(&mut self, place: Place)
        ensures { self.new ≡ record self.old { place = place; spot = Spot.Content } }
    {
        self.place = place;
        self.spot = Spot::Content;
    }

    /// The element at a place ends.
    #[tactic(auto, unfolding(crate::specs::Grammar::ended))]
    fn end(&mut self, alloc: Global, place: Place) -> Result<(), NoMemory>
        ensures { OnOk result (self.new ≡ ended place self.old) }
    {
        match place {
            Place::Before => {}
            Place::In(Element::Linker) => self.go_on_in(Place::After),
            Place::In(Element::Assembly) => self.end_assembly(alloc)?,
            Place::In(Element::Type) => self.end_type()?,
            Place::In(Element::Method) => self.go_on_in(Place::In(Element::Type)),
            Place::In(Element::Field) => self.go_on_in(Place::In(Element::Type)),
            Place::In(Element::Property) => self.go_on_in(Place::In(Element::Type)),
            Place::In(Element::Event) => self.go_on_in(Place::In(Element::Type)),
            Place::After => {}
        }
        Ok(())
    }

    /// Takes an attribute. Whether it is allowed here.
    fn take_value(&mut self, attribute: Attribute, text: Text) -> Result<bool, NoMemory>
        ensures { IfOk result (λ allowed. if_allowed allowed self.new ≡ with_given attribute text self.old.spot self.old) }
    {
        match self.spot {
            Spot::Content => Ok(false),
            Spot::Starts(element, _) => {
                if !takes(element, attribute) || is_given(attribute, self.given.as_slice()) {
                    return Ok(false);
                }
                self.given.push(Given { attribute, text })?;
                Ok(true)
            }
            Spot::Stops => Ok(false),
        }
    }

    /// Takes the end of a start tag. Whether the element has what it needs.
    fn take_start_end(
        &mut self,
        alloc: Global,
        element: Element,
        at: u32,
        empty: bool,
    ) -> Result<bool, NoMemory>
        ensures { IfOk result (λ allowed. if_allowed allowed self.new ≡ start_ended empty element at self.old) }
    {
        if !is_complete(element, self.given.as_slice()) {
            return Ok(false);
        }
        self.begin(alloc, element, at)?;
        if empty {
            self.end(alloc, Place::In(element))?;
        }
        Ok(true)
    }

    /// Takes the end of a tag. Whether it is allowed here.
    fn take_end(&mut self, alloc: Global, empty: bool) -> Result<bool, NoMemory>
        ensures { IfOk result (λ allowed. if_allowed allowed self.new ≡ tag_ended empty self.old.spot self.old) }
    {
        match self.spot {
            Spot::Content => Ok(false),
            Spot::Starts(element, at) => self.take_start_end(alloc, element, at, empty),
            Spot::Stops => {
                if empty {
                    return Ok(false);
                }
                self.end(alloc, self.place)?;
                Ok(true)
            }
        }
    }

    fn take_start(&mut self, alloc: Global, element: Element, at: u32) -> bool
        ensures { if_allowed result self.new ≡ started element at self.old }
    {
        if !holds(self.place, element) {
            return false;
        }
        self.spot = Spot::Starts(element, at);
        self.given = Seq::new(alloc);
        true
    }

    fn take_stop(&mut self, element: Element) -> bool
        ensures { if_allowed result self.new ≡ stopped element self.old }
    {
        if !closes(self.place, element) {
            return false;
        }
        self.spot = Spot::Stops;
        true
    }

    /// Takes a token that begins at `at`. Whether it is allowed there; else what was read is of no use.
    #[tactic(auto, unfolding(crate::specs::Grammar::step))]
    pub(crate) fn take(&mut self, alloc: Global, at: u32, token: Token) -> Result<bool, NoMemory>
        ensures { IfOk result (λ allowed. if_allowed allowed self.new ≡ step at token self.old) }
    {
        match token {
            Token::Start(element) => Ok(self.take_start(alloc, element, at)),
            Token::Stop(element) => Ok(self.take_stop(element)),
            Token::Value(attribute, text) => self.take_value(attribute, text),
            Token::End => self.take_end(alloc, false),
            Token::EmptyEnd => self.take_end(alloc, true),
            Token::Comment => Ok(true),
        }
    }
}
