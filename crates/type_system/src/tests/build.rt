//! Records made by hand, row by row.

ghost use Rattle.std.specs.Prelude.{IfOk};
ghost use Rattle.rules.specs.link_rules.Linked.{IsWorld};

use il_base::world_model::{
    AsmRec, AssemblyRefRow, AssemblyRow, FieldRow, GenericParamRow, InterfaceImplRow, Known,
    MemberRefRow, MemberSig, MethodDefRow, MethodImplRow, TypeDefRow, TypeExpr, TypeRefRow,
    TypeSpecRow, World,
};
use il_base::{Boxed, MethodSig, NoMemory, Seq, Sig, Text, TypeId};
use resolver::link;
use std::alloc::Global;

/// public virtual newslot
pub const VIRTUAL: u16 = 0x146;
/// public virtual newslot abstract
pub const ABSTRACT: u16 = 0x546;
/// public virtual
pub const OVERRIDE: u16 = 0x46;
/// private final virtual newslot: an explicit implementation
pub const EXPLICIT: u16 = 0x161;
/// private virtual newslot
pub const PRIVATE: u16 = 0x141;
/// protected virtual newslot
pub const FAMILY: u16 = 0x144;
/// public
pub const PLAIN: u16 = 0x06;
/// The first TypeRef row, which is that of System.Object.
pub const OBJECT: u32 = 0x0100_0001;

/// A record without rows.
pub fn no_rows(alloc: Global) -> AsmRec {
    AsmRec {
        bits: 1,
        subsystem: 3,
        entry: 0,
        descriptor: None,
        module: Seq::new(alloc),
        type_ref: Seq::new(alloc),
        type_def: Seq::new(alloc),
        field: Seq::new(alloc),
        method_def: Seq::new(alloc),
        param: Seq::new(alloc),
        interface_impl: Seq::new(alloc),
        member_ref: Seq::new(alloc),
        constant: Seq::new(alloc),
        custom_attribute: Seq::new(alloc),
        field_marshal: Seq::new(alloc),
        decl_security: Seq::new(alloc),
        class_layout: Seq::new(alloc),
        field_layout: Seq::new(alloc),
        stand_alone_sig: Seq::new(alloc),
        event_map: Seq::new(alloc),
        event: Seq::new(alloc),
        property_map: Seq::new(alloc),
        property: Seq::new(alloc),
        method_semantics: Seq::new(alloc),
        method_impl: Seq::new(alloc),
        module_ref: Seq::new(alloc),
        type_spec: Seq::new(alloc),
        impl_map: Seq::new(alloc),
        field_rva: Seq::new(alloc),
        assembly: Seq::new(alloc),
        assembly_processor: Seq::new(alloc),
        assembly_os: Seq::new(alloc),
        assembly_ref: Seq::new(alloc),
        assembly_ref_processor: Seq::new(alloc),
        assembly_ref_os: Seq::new(alloc),
        file: Seq::new(alloc),
        exported_type: Seq::new(alloc),
        manifest_resource: Seq::new(alloc),
        nested_class: Seq::new(alloc),
        generic_param: Seq::new(alloc),
        method_spec: Seq::new(alloc),
        generic_param_constraint: Seq::new(alloc),
        user: Seq::new(alloc),
    }
}

pub fn text(alloc: Global, name: &[u8]) -> Result<Text, NoMemory> {
    Seq::from_slice(alloc, name)
}

/// The world of some assemblies.
pub fn world(alloc: Global, recs: Seq<AsmRec>) -> Result<World, NoMemory>
    ensures { IfOk result IsWorld }
{
    match link(alloc, recs) {
        Err(_) => Err(NoMemory),
        Ok(world) => Ok(world),
    }
}

/// Appends an assembly to others, by what fills its record.
pub fn push_filled<F: FnOnce(&mut AsmRec, Global) -> Result<(), NoMemory>>(
    recs: &mut Seq<AsmRec>,
    alloc: Global,
    fill: F,
) -> Result<(), NoMemory>
    requires { F.IsAlwaysCallable fill }
{
    let mut rec = no_rows(alloc);
    fill(&mut rec, alloc)?;
    recs.push(rec)
}

/// The world of one assembly, by what fills its record.
pub fn built<F: FnOnce(&mut AsmRec, Global) -> Result<(), NoMemory>>(
    alloc: Global,
    fill: F,
) -> Result<World, NoMemory>
    requires { F.IsAlwaysCallable fill }
    ensures { IfOk result IsWorld }
{
    let mut recs = Seq::new(alloc);
    push_filled(&mut recs, alloc, fill)?;
    world(alloc, recs)
}

fn call(rec: &mut AsmRec, alloc: Global, name: &[u8]) -> Result<(), NoMemory> {
    rec.assembly.push(AssemblyRow {
        hash_alg_id: 0x8004,
        major_version: 1,
        minor_version: 0,
        build_number: 0,
        revision_number: 0,
        flags: 0,
        public_key: Seq::new(alloc),
        name: text(alloc, name)?,
        culture: Seq::new(alloc),
    })
}

pub fn refer(rec: &mut AsmRec, alloc: Global, name: &[u8]) -> Result<(), NoMemory> {
    rec.assembly_ref.push(AssemblyRefRow {
        major_version: 1,
        minor_version: 0,
        build_number: 0,
        revision_number: 0,
        flags: 0,
        public_key_or_token: Seq::new(alloc),
        name: text(alloc, name)?,
        culture: Seq::new(alloc),
        hash_value: Seq::new(alloc),
    })
}

/// A reference to a type in the assembly of an AssemblyRef row.
pub fn mention(
    rec: &mut AsmRec,
    alloc: Global,
    scope: u32,
    namespace: &[u8],
    name: &[u8],
) -> Result<(), NoMemory> {
    rec.type_ref.push(TypeRefRow {
        resolution_scope: scope,
        name: text(alloc, name)?,
        namespace: text(alloc, namespace)?,
    })
}

/// The row, from 1, after so many.
fn row_behind(count: usize) -> Result<u32, NoMemory> {
    match u32::try_from(count) {
        Ok(count) => Ok(count.saturating_add(1)),
        Err(_) => Err(NoMemory),
    }
}

/// A type whose members are to be pushed next: so many fields, and so many methods.
fn define(
    rec: &mut AsmRec,
    alloc: Global,
    flags: u32,
    name: &[u8],
    extends: u32,
    fields: u32,
    methods: u32,
) -> Result<(), NoMemory> {
    let field = row_behind(rec.field.len())?;
    let method = row_behind(rec.method_def.len())?;
    rec.type_def.push(TypeDefRow {
        flags,
        name: text(alloc, name)?,
        namespace: Seq::new(alloc),
        extends,
        field_list_first: field,
        field_list_end: field.saturating_add(fields),
        method_list_first: method,
        method_list_end: method.saturating_add(methods),
    })
}

/// A class whose methods, so many, are to be pushed next.
pub fn class(
    rec: &mut AsmRec,
    alloc: Global,
    name: &[u8],
    extends: u32,
    methods: u32,
) -> Result<(), NoMemory> {
    define(rec, alloc, 0x0010_0001, name, extends, 0, methods)
}

/// A class with one field, which is to be pushed next, and with so many methods after it.
pub fn class_with_field(
    rec: &mut AsmRec,
    alloc: Global,
    name: &[u8],
    extends: u32,
    methods: u32,
) -> Result<(), NoMemory> {
    define(rec, alloc, 0x0010_0001, name, extends, 1, methods)
}

/// An interface without methods whose row has a base, which no interface has.
pub fn interface_with_base(
    rec: &mut AsmRec,
    alloc: Global,
    name: &[u8],
    extends: u32,
) -> Result<(), NoMemory> {
    define(rec, alloc, 0xa1, name, extends, 0, 0)
}

/// An interface whose methods, so many, are to be pushed next.
pub fn interface(
    rec: &mut AsmRec,
    alloc: Global,
    name: &[u8],
    methods: u32,
) -> Result<(), NoMemory> {
    define(rec, alloc, 0xa1, name, 0, 0, methods)
}

/// An assembly of a name, with a reference to System.Object and with the type `<Module>`.
pub fn begin(rec: &mut AsmRec, alloc: Global, name: &[u8]) -> Result<(), NoMemory> {
    call(rec, alloc, name)?;
    refer(rec, alloc, b"System.Runtime")?;
    mention(rec, alloc, 0x2300_0001, b"System", b"Object")?;
    define(rec, alloc, 0, b"<Module>", 0, 0, 0)
}

/// A method of these parameters, which returns nothing.
fn push_method(
    rec: &mut AsmRec,
    alloc: Global,
    name: &[u8],
    flags: u16,
    params: Seq<Sig>,
) -> Result<(), NoMemory> {
    rec.method_def.push(MethodDefRow {
        rva: 0,
        impl_flags: 0,
        flags,
        name: text(alloc, name)?,
        signature: Known::Good(MethodSig {
            this: flags & 0x10 == 0,
            generic: 0,
            ret: Sig::Prim(0x01),
            params,
        }),
        param_list_first: 1,
        param_list_end: 1,
        body: None,
        bad_at: 0,
    })
}

/// A method without parameters, which returns nothing.
pub fn method(rec: &mut AsmRec, alloc: Global, name: &[u8], flags: u16) -> Result<(), NoMemory> {
    push_method(rec, alloc, name, flags, Seq::new(alloc))
}

/// A method of one parameter, which returns nothing.
pub fn method_of(
    rec: &mut AsmRec,
    alloc: Global,
    name: &[u8],
    flags: u16,
    param: Sig,
) -> Result<(), NoMemory> {
    let mut params = Seq::new(alloc);
    params.push(param)?;
    push_method(rec, alloc, name, flags, params)
}

/// The class of a TypeDef row implements the interface of a token.
pub fn implement(rec: &mut AsmRec, class: u32, interface: u32) -> Result<(), NoMemory> {
    rec.interface_impl
        .push(InterfaceImplRow { class, interface })
}

/// In the class of a TypeDef row a method is the body for a declaration.
pub fn override_by(
    rec: &mut AsmRec,
    class: u32,
    body: u32,
    declaration: u32,
) -> Result<(), NoMemory> {
    rec.method_impl.push(MethodImplRow {
        class,
        body,
        declaration,
    })
}

/// A generic parameter of the type of a TypeDef row, by its number from 0.
pub fn generic(rec: &mut AsmRec, alloc: Global, owner: u32, number: u16) -> Result<(), NoMemory> {
    rec.generic_param.push(GenericParamRow {
        number,
        flags: 0,
        owner,
        name: text(alloc, b"T")?,
    })
}

/// A TypeSpec row for a generic class of one argument.
pub fn instance_of(rec: &mut AsmRec, alloc: Global, token: u32, arg: Sig) -> Result<(), NoMemory> {
    let mut args = Seq::new(alloc);
    args.push(arg)?;
    rec.type_spec.push(TypeSpecRow {
        signature: Known::Good(Sig::Inst {
            value: false,
            token,
            args,
        }),
    })
}

/// A reference to a method without parameters, which returns nothing, of the type of a token.
pub fn method_ref(
    rec: &mut AsmRec,
    alloc: Global,
    class: u32,
    name: &[u8],
) -> Result<(), NoMemory> {
    rec.member_ref.push(MemberRefRow {
        class,
        name: text(alloc, name)?,
        signature: Known::Good(MemberSig::Method(MethodSig {
            this: true,
            generic: 0,
            ret: Sig::Prim(0x01),
            params: Seq::new(alloc),
        })),
    })
}

/// A type that isn't generic, or a generic type's definition, by its id.
pub fn def(id: u32) -> TypeExpr {
    TypeExpr::Def(TypeId(id))
}

/// `int`
pub fn int32() -> TypeExpr {
    TypeExpr::Prim(0x08)
}

/// `string`
pub fn string() -> TypeExpr {
    TypeExpr::Prim(0x0e)
}

/// A generic type with one argument.
pub fn inst(alloc: Global, id: u32, arg: TypeExpr) -> Result<TypeExpr, NoMemory> {
    let mut args = Seq::new(alloc);
    args.push(arg)?;
    Ok(TypeExpr::Inst(TypeId(id), args))
}

/// A vector of some type.
pub fn array(alloc: Global, element: TypeExpr) -> Result<TypeExpr, NoMemory> {
    let element = Boxed::new(alloc, element)?;
    Ok(TypeExpr::Array(element))
}
