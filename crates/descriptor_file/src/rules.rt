ghost use Rattle.std.specs.Prelude.{◌≡◌};
ghost use Rattle.descriptor_file.specs.Grammar.{holds, element_number, closes, takes, attribute_number, is_attribute, kind_of, preserve_of, is_done};

use crate::root::{member, preserve};
use crate::state::{Place, Spot};
use crate::token::{Attribute, Element};

fn is_linker(element: Element) -> bool
    ensures { result ≡ holds Place.Before element }
{
    match element {
        Element::Linker => true,
        Element::Assembly => false,
        Element::Type => false,
        Element::Method => false,
        Element::Field => false,
        Element::Property => false,
        Element::Event => false,
    }
}

fn is_assembly(element: Element) -> bool
    ensures { result ≡ holds (Place.In Element.Linker) element }
{
    match element {
        Element::Linker => false,
        Element::Assembly => true,
        Element::Type => false,
        Element::Method => false,
        Element::Field => false,
        Element::Property => false,
        Element::Event => false,
    }
}

fn is_type(element: Element) -> bool
    ensures { result ≡ holds (Place.In Element.Assembly) element }
{
    match element {
        Element::Linker => false,
        Element::Assembly => false,
        Element::Type => true,
        Element::Method => false,
        Element::Field => false,
        Element::Property => false,
        Element::Event => false,
    }
}

fn is_member(element: Element) -> bool
    ensures { result ≡ holds (Place.In Element.Type) element }
{
    match element {
        Element::Linker => false,
        Element::Assembly => false,
        Element::Type => false,
        Element::Method => true,
        Element::Field => true,
        Element::Property => true,
        Element::Event => true,
    }
}

/// Whether an element may stand at this place.
pub(crate) fn holds(place: Place, element: Element) -> bool
    ensures { result ≡ holds place element }
{
    match place {
        Place::Before => is_linker(element),
        Place::In(Element::Linker) => is_assembly(element),
        Place::In(Element::Assembly) => is_type(element),
        Place::In(Element::Type) => is_member(element),
        Place::In(Element::Method) => false,
        Place::In(Element::Field) => false,
        Place::In(Element::Property) => false,
        Place::In(Element::Event) => false,
        Place::After => false,
    }
}

fn element_number(element: Element) -> u8
    ensures { result ≡ element_number element }
{
    match element {
        Element::Linker => 0,
        Element::Assembly => 1,
        Element::Type => 2,
        Element::Method => 3,
        Element::Field => 4,
        Element::Property => 5,
        Element::Event => 6,
    }
}

/// Whether the innermost element is this one.
pub(crate) fn closes(place: Place, element: Element) -> bool
    ensures { result ≡ closes place element }
{
    match place {
        Place::Before => false,
        Place::In(innermost) => element_number(innermost) == element_number(element),
        Place::After => false,
    }
}

fn type_takes(attribute: Attribute) -> bool
    ensures { result ≡ takes Element.Type attribute }
{
    match attribute {
        Attribute::FullName => true,
        Attribute::Preserve => true,
        Attribute::Required => true,
        Attribute::Name => false,
        Attribute::Signature => false,
    }
}

fn is_full_name(attribute: Attribute) -> bool
    ensures { result ≡ takes Element.Assembly attribute }
{
    match attribute {
        Attribute::FullName => true,
        Attribute::Preserve => false,
        Attribute::Required => false,
        Attribute::Name => false,
        Attribute::Signature => false,
    }
}

fn is_name(attribute: Attribute) -> bool
    ensures { result ≡ takes Element.Property attribute }
{
    match attribute {
        Attribute::FullName => false,
        Attribute::Preserve => false,
        Attribute::Required => false,
        Attribute::Name => true,
        Attribute::Signature => false,
    }
}

fn is_name_or_signature(attribute: Attribute) -> bool
    ensures { result ≡ takes Element.Method attribute }
{
    match attribute {
        Attribute::FullName => false,
        Attribute::Preserve => false,
        Attribute::Required => false,
        Attribute::Name => true,
        Attribute::Signature => true,
    }
}

/// Whether an element takes an attribute.
pub(crate) fn takes(element: Element, attribute: Attribute) -> bool
    ensures { result ≡ takes element attribute }
{
    match element {
        Element::Linker => false,
        Element::Assembly => is_full_name(attribute),
        Element::Type => type_takes(attribute),
        Element::Method => is_name_or_signature(attribute),
        Element::Field => is_name_or_signature(attribute),
        Element::Property => is_name(attribute),
        Element::Event => is_name(attribute),
    }
}

fn attribute_number(attribute: Attribute) -> u8
    ensures { result ≡ attribute_number attribute }
{
    match attribute {
        Attribute::FullName => 0,
        Attribute::Preserve => 1,
        Attribute::Required => 2,
        Attribute::Name => 3,
        Attribute::Signature => 4,
    }
}

/// Whether two attributes are the same.
pub(crate) fn is_attribute(one: Attribute, other: Attribute) -> bool
    ensures { result ≡ is_attribute one other }
{
    attribute_number(one) == attribute_number(other)
}

/// The kind of a member, as `RootMember` has it.
pub(crate) fn kind_of(element: Element) -> u8
    ensures { result ≡ kind_of element }
{
    match element {
        Element::Linker => 0,
        Element::Assembly => 0,
        Element::Type => 0,
        Element::Method => member::METHOD,
        Element::Field => member::FIELD,
        Element::Property => member::PROPERTY,
        Element::Event => member::EVENT,
    }
}

/// What the text of a `preserve` stands for, as `Root` has it.
#[tactic(auto, unfolding(crate::specs::Grammar::preserve_of))]
pub(crate) fn preserve_of(text: &[u8]) -> u8
    ensures { result ≡ preserve_of text.now }
{
    if text == b"all".as_slice() {
        preserve::ALL
    } else if text == b"fields".as_slice() {
        preserve::FIELDS
    } else if text == b"methods".as_slice() {
        preserve::METHODS
    } else {
        preserve::NOTHING
    }
}

/// Whether the file may end here.
pub(crate) fn is_done(place: Place, spot: Spot) -> bool
    ensures { result ≡ is_done place spot }
{
    match place {
        Place::Before => false,
        Place::In(_) => false,
        Place::After => match spot {
            Spot::Content => true,
            Spot::Starts(_, _) => false,
            Spot::Stops => false,
        },
    }
}
