//! A record made by hand, row by row, and its world.

ghost use Rattle.std.specs.Prelude.{IfOk};
ghost use Rattle.rules.specs.link_rules.Linked.{IsWorld};

use crate::bodies::push_bodies;
use il_base::world_model::{
    AsmRec, AssemblyRefRow, AssemblyRow, BadKind, Known, MemberRefRow, MemberSig, MethodDefRow,
    StandAloneSigRow, TypeDefRow, TypeRefRow, UserText, World,
};
use il_base::{Body, MethodSig, NoMemory, Seq, Sig, Text, element, outside};
use resolver::link;
use std::alloc::Global;

/// The TypeRef row of System.Object.
pub const OBJECT: u32 = 0x0100_0001;
/// The TypeRef row of System.Type, and those of the types in the signatures of its members.
const TYPE: u32 = 0x0100_0004;

const TYPE_HANDLE: u32 = 0x0100_0005;

const METHOD_INFO: u32 = 0x0100_0006;
/// The TypeDef row of the class C, after `<Module>` and P.
pub const CLASS_C: u32 = 0x0200_0003;
/// The MemberRef row of the constructor of System.Exception.
pub const EXCEPTION: u32 = 0x0a00_0001;
/// The MemberRef row of Type.GetTypeFromHandle.
pub const FROM_HANDLE: u32 = 0x0a00_0002;
/// The MemberRef row of Type.GetMethod(string).
pub const GET_METHOD: u32 = 0x0a00_0003;
/// The signature of one local.
pub const ONE_LOCAL: u32 = 0x1100_0001;
/// The method after those of `bodies`, whose parameter is of a type that isn't there.
pub const MISSING: u32 = 0x0600_0007;
/// The last method, whose signature has no reading.
pub const UNREAD: u32 = 0x0600_0008;
/// The text `A`.
pub const TEXT_A: u32 = 0x7000_0001;

/// A record without rows.
fn no_rows(alloc: Global) -> AsmRec {
    AsmRec {
        bits: 1,
        subsystem: 3,
        entry: 0,
        descriptor: None,
        module: Seq::new(alloc),
        type_ref: Seq::new(alloc),
        type_def: Seq::new(alloc),
        field: Seq::new(alloc),
        method_def: Seq::new(alloc),
        param: Seq::new(alloc),
        interface_impl: Seq::new(alloc),
        member_ref: Seq::new(alloc),
        constant: Seq::new(alloc),
        custom_attribute: Seq::new(alloc),
        field_marshal: Seq::new(alloc),
        decl_security: Seq::new(alloc),
        class_layout: Seq::new(alloc),
        field_layout: Seq::new(alloc),
        stand_alone_sig: Seq::new(alloc),
        event_map: Seq::new(alloc),
        event: Seq::new(alloc),
        property_map: Seq::new(alloc),
        property: Seq::new(alloc),
        method_semantics: Seq::new(alloc),
        method_impl: Seq::new(alloc),
        module_ref: Seq::new(alloc),
        type_spec: Seq::new(alloc),
        impl_map: Seq::new(alloc),
        field_rva: Seq::new(alloc),
        assembly: Seq::new(alloc),
        assembly_processor: Seq::new(alloc),
        assembly_os: Seq::new(alloc),
        assembly_ref: Seq::new(alloc),
        assembly_ref_processor: Seq::new(alloc),
        assembly_ref_os: Seq::new(alloc),
        file: Seq::new(alloc),
        exported_type: Seq::new(alloc),
        manifest_resource: Seq::new(alloc),
        nested_class: Seq::new(alloc),
        generic_param: Seq::new(alloc),
        method_spec: Seq::new(alloc),
        generic_param_constraint: Seq::new(alloc),
        user: Seq::new(alloc),
    }
}

fn text(alloc: Global, name: &[u8]) -> Result<Text, NoMemory> {
    Seq::from_slice(alloc, name)
}

fn push_assembly(rec: &mut AsmRec, alloc: Global) -> Result<(), NoMemory> {
    rec.assembly.push(AssemblyRow {
        hash_alg_id: 0x8004,
        major_version: 1,
        minor_version: 0,
        build_number: 0,
        revision_number: 0,
        flags: 0,
        public_key: Seq::new(alloc),
        name: text(alloc, b"App")?,
        culture: Seq::new(alloc),
    })
}

fn push_reference(rec: &mut AsmRec, alloc: Global) -> Result<(), NoMemory> {
    rec.assembly_ref.push(AssemblyRefRow {
        major_version: 8,
        minor_version: 0,
        build_number: 0,
        revision_number: 0,
        flags: 0,
        public_key_or_token: Seq::new(alloc),
        name: text(alloc, b"System.Runtime")?,
        culture: Seq::new(alloc),
        hash_value: Seq::new(alloc),
    })
}

fn mention(rec: &mut AsmRec, alloc: Global, namespace: &[u8], name: &[u8]) -> Result<(), NoMemory> {
    rec.type_ref.push(TypeRefRow {
        resolution_scope: 0x2300_0001,
        name: text(alloc, name)?,
        namespace: text(alloc, namespace)?,
    })
}

fn mention_types(rec: &mut AsmRec, alloc: Global) -> Result<(), NoMemory> {
    mention(rec, alloc, b"System", b"Object")?;
    mention(rec, alloc, b"System", b"Exception")?;
    mention(rec, alloc, b"System", b"Nothing")?;
    mention(rec, alloc, b"System", b"Type")?;
    mention(rec, alloc, b"System", b"RuntimeTypeHandle")?;
    mention(rec, alloc, b"System.Reflection", b"MethodInfo")
}

/// A class with the methods from a row up to another.
fn class(
    rec: &mut AsmRec,
    alloc: Global,
    name: &[u8],
    extends: u32,
    first: u32,
    end: u32,
) -> Result<(), NoMemory> {
    rec.type_def.push(TypeDefRow {
        flags: 0x0010_0001,
        name: text(alloc, name)?,
        namespace: Seq::new(alloc),
        extends,
        field_list_first: 1,
        field_list_end: 1,
        method_list_first: first,
        method_list_end: end,
    })
}

/// The signature of a method that returns nothing.
fn signature(this: bool, params: Seq<Sig>) -> MethodSig {
    MethodSig {
        this,
        generic: 0,
        ret: Sig::Prim(element::VOID),
        params,
    }
}

fn push_constructor(rec: &mut AsmRec, alloc: Global) -> Result<(), NoMemory> {
    rec.member_ref.push(MemberRefRow {
        class: 0x0100_0002,
        name: text(alloc, b".ctor")?,
        signature: Known::Good(MemberSig::Method(signature(true, Seq::new(alloc)))),
    })
}

/// A method of System.Type with one parameter, which returns a class.
fn push_type_member(
    rec: &mut AsmRec,
    alloc: Global,
    name: &[u8],
    this: bool,
    class: u32,
    param: Sig,
) -> Result<(), NoMemory> {
    let mut params = Seq::new(alloc);
    params.push(param)?;
    let ret = Sig::Named {
        value: false,
        token: class,
    };
    rec.member_ref.push(MemberRefRow {
        class: TYPE,
        name: text(alloc, name)?,
        signature: Known::Good(MemberSig::Method(MethodSig {
            this,
            generic: 0,
            ret,
            params,
        })),
    })
}

fn push_type_members(rec: &mut AsmRec, alloc: Global) -> Result<(), NoMemory> {
    let handle = Sig::Named {
        value: true,
        token: TYPE_HANDLE,
    };
    push_type_member(rec, alloc, b"GetTypeFromHandle", false, TYPE, handle)?;
    let name = Sig::Prim(element::STRING);
    push_type_member(rec, alloc, b"GetMethod", true, METHOD_INFO, name)
}

fn push_local(rec: &mut AsmRec, alloc: Global) -> Result<(), NoMemory> {
    let mut locals = Seq::new(alloc);
    locals.push(Sig::Prim(element::OBJECT))?;
    rec.stand_alone_sig.push(StandAloneSigRow {
        signature: Known::Good(locals),
    })
}

fn push_text(rec: &mut AsmRec, alloc: Global) -> Result<(), NoMemory> {
    rec.user.push(UserText {
        token: TEXT_A,
        text: Seq::from_slice(alloc, &[0x41])?,
    })
}

/// A static method.
fn push_row(
    rec: &mut AsmRec,
    alloc: Global,
    name: &[u8],
    signature: Known<MethodSig>,
    body: Option<Known<Body>>,
) -> Result<(), NoMemory> {
    rec.method_def.push(MethodDefRow {
        rva: 0x2050,
        impl_flags: 0,
        flags: 0x16,
        name: text(alloc, name)?,
        signature,
        param_list_first: 1,
        param_list_end: 1,
        body,
        bad_at: 0,
    })
}

/// The signature of a static method of one parameter that returns nothing.
fn of_one(alloc: Global, param: Sig) -> Result<Known<MethodSig>, NoMemory> {
    let mut params = Seq::new(alloc);
    params.push(param)?;
    Ok(Known::Good(signature(false, params)))
}

/// A static method of one parameter, an object.
pub fn push_method(
    rec: &mut AsmRec,
    alloc: Global,
    name: &[u8],
    body: Body,
) -> Result<(), NoMemory> {
    let signature = of_one(alloc, Sig::Prim(element::OBJECT))?;
    push_row(rec, alloc, name, signature, Some(Known::Good(body)))
}

/// The methods without a body.
fn push_bodiless(rec: &mut AsmRec, alloc: Global) -> Result<(), NoMemory> {
    let nothing = Sig::Named {
        value: false,
        token: 0x0100_0003,
    };
    let signature = of_one(alloc, nothing)?;
    push_row(rec, alloc, b"Missing", signature, None)?;
    push_row(
        rec,
        alloc,
        b"Unread",
        Known::Bad(BadKind::Outside(outside::SIGNATURE)),
        None,
    )
}

/// `class P` with the methods of `bodies` and two without a body, and `class C`.
fn fill(rec: &mut AsmRec, alloc: Global) -> Result<(), NoMemory> {
    push_assembly(rec, alloc)?;
    push_reference(rec, alloc)?;
    mention_types(rec, alloc)?;
    class(rec, alloc, b"<Module>", 0, 1, 1)?;
    class(rec, alloc, b"P", OBJECT, 1, 9)?;
    class(rec, alloc, b"C", OBJECT, 9, 9)?;
    push_constructor(rec, alloc)?;
    push_type_members(rec, alloc)?;
    push_local(rec, alloc)?;
    push_text(rec, alloc)?;
    push_bodies(rec, alloc)?;
    push_bodiless(rec, alloc)
}

/// Appends an assembly to others, by what fills its record.
fn push_filled<F: FnOnce(&mut AsmRec, Global) -> Result<(), NoMemory>>(
    recs: &mut Seq<AsmRec>,
    alloc: Global,
    fill: F,
) -> Result<(), NoMemory>
    requires { F.IsAlwaysCallable fill }
{
    let mut rec = no_rows(alloc);
    fill(&mut rec, alloc)?;
    recs.push(rec)
}

fn linked(alloc: Global, recs: Seq<AsmRec>) -> Result<World, NoMemory>
    ensures { IfOk result IsWorld }
{
    match link(alloc, recs) {
        Err(_) => Err(NoMemory),
        Ok(world) => Ok(world),
    }
}

/// The world of that assembly.
pub fn world(alloc: Global) -> Result<World, NoMemory>
    ensures { IfOk result IsWorld }
{
    let mut recs = Seq::new(alloc);
    push_filled(&mut recs, alloc, fill)?;
    linked(alloc, recs)
}
