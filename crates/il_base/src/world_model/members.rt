//! Rows on members. Indices are tokens (the table's number in the high byte), 0 for none; names are UTF-8.

use crate::world_model::expr::MemberSig;
use crate::world_model::known::Known;
use crate::{Body, MethodSig, Seq, Sig, Text};

/// A row of Field (II.22.15).
#[derive(Drop)]
pub struct FieldRow {
    /// II.23.1.5.
    pub flags: u16,
    pub name: Text,
    pub signature: Known<Sig>,
}

/// A row of MethodDef (II.22.26).
#[derive(Drop)]
pub struct MethodDefRow {
    /// The address of the body in the image, 0 for none.
    pub rva: u32,
    /// II.23.1.11.
    pub impl_flags: u16,
    /// II.23.1.10.
    pub flags: u16,
    pub name: Text,
    pub signature: Known<MethodSig>,
    /// The first Param row of the method, from 1.
    pub param_list_first: u32,
    /// The row past its last.
    pub param_list_end: u32,
    /// None where `rva` is 0.
    pub body: Option<Known<Body>>,
    /// The IL offset of a bad body's fault, 0 otherwise.
    pub bad_at: u32,
}

/// A row of Param (II.22.33).
#[derive(Drop)]
pub struct ParamRow {
    pub flags: u16,
    /// 0 for the return, else the parameter from 1.
    pub sequence: u16,
    pub name: Text,
}

/// A row of MemberRef (II.22.25).
#[derive(Drop)]
pub struct MemberRefRow {
    /// A TypeDef, TypeRef, ModuleRef, MethodDef or TypeSpec token.
    pub class: u32,
    pub name: Text,
    pub signature: Known<MemberSig>,
}

/// A row of MethodSpec (II.22.29).
#[derive(Drop)]
pub struct MethodSpecRow {
    /// A MethodDef or MemberRef token.
    pub method: u32,
    pub instantiation: Known<Seq<Sig>>,
}

/// A row of StandAloneSig (II.22.36).
#[derive(Drop)]
pub struct StandAloneSigRow {
    /// The types of the locals.
    pub signature: Known<Seq<Sig>>,
}

/// A row of Property (II.22.34).
#[derive(Drop)]
pub struct PropertyRow {
    pub flags: u16,
    pub name: Text,
    pub signature: Known<MethodSig>,
}

/// A row of PropertyMap (II.22.35).
#[derive(Drop)]
pub struct PropertyMapRow {
    /// A TypeDef token.
    pub parent: u32,
    /// The first Property row, from 1.
    pub property_list_first: u32,
    /// The row past the last.
    pub property_list_end: u32,
}

/// A row of Event (II.22.13).
#[derive(Drop)]
pub struct EventRow {
    pub event_flags: u16,
    pub name: Text,
    /// A TypeDef, TypeRef or TypeSpec token.
    pub event_type: u32,
}

/// A row of EventMap (II.22.12).
#[derive(Drop)]
pub struct EventMapRow {
    /// A TypeDef token.
    pub parent: u32,
    /// The first Event row, from 1.
    pub event_list_first: u32,
    /// The row past the last.
    pub event_list_end: u32,
}

/// A row of MethodSemantics (II.22.28).
#[derive(Drop)]
pub struct MethodSemanticsRow {
    pub semantics: u16,
    /// A MethodDef token.
    pub method: u32,
    /// An Event or Property token.
    pub association: u32,
}

/// A row of MethodImpl (II.22.27).
#[derive(Drop)]
pub struct MethodImplRow {
    /// A TypeDef token.
    pub class: u32,
    /// A MethodDef or MemberRef token.
    pub body: u32,
    /// A MethodDef or MemberRef token.
    pub declaration: u32,
}
