use crate::world_model::assemblies::{
    AssemblyOsRow, AssemblyProcessorRow, AssemblyRefOsRow, AssemblyRefProcessorRow, AssemblyRefRow,
    AssemblyRow, ModuleRefRow,
};
use crate::world_model::extras::{
    ConstantRow, CustomAttributeRow, DeclSecurityRow, FieldLayoutRow, FieldMarshalRow, FieldRvaRow,
    FileRow, ImplMapRow, ManifestResourceRow,
};
use crate::world_model::members::{
    EventMapRow, EventRow, FieldRow, MemberRefRow, MethodDefRow, MethodImplRow, MethodSemanticsRow,
    MethodSpecRow, ParamRow, PropertyMapRow, PropertyRow, StandAloneSigRow,
};
use crate::world_model::types::{
    ClassLayoutRow, ExportedTypeRow, GenericParamConstraintRow, GenericParamRow, InterfaceImplRow,
    ModuleRow, NestedClassRow, TypeDefRow, TypeRefRow, TypeSpecRow,
};
use crate::{Seq, Text, Units};

/// A text that `ldstr` names.
#[derive(Drop)]
pub struct UserText {
    /// 70 in the high byte, the offset in `#US` below it (III.4.16).
    pub token: u32,
    pub text: Units,
}

/// An assembly as a file has it: each table's rows, in order. A signature, a body or field bytes without a reading
/// stand as Bad in their places.
#[derive(Drop)]
pub struct AsmRec {
    /// The flags of the CLI header (II.25.3.3.1).
    pub bits: u32,
    /// The subsystem of the PE header (II.25.2.3.2).
    pub subsystem: u16,
    /// The entry point token of the CLI header.
    pub entry: u32,
    /// The embedded descriptor: the resource `ILLink.Descriptors.xml`.
    pub descriptor: Option<Text>,
    pub module: Seq<ModuleRow>,
    pub type_ref: Seq<TypeRefRow>,
    pub type_def: Seq<TypeDefRow>,
    pub field: Seq<FieldRow>,
    pub method_def: Seq<MethodDefRow>,
    pub param: Seq<ParamRow>,
    pub interface_impl: Seq<InterfaceImplRow>,
    pub member_ref: Seq<MemberRefRow>,
    pub constant: Seq<ConstantRow>,
    pub custom_attribute: Seq<CustomAttributeRow>,
    pub field_marshal: Seq<FieldMarshalRow>,
    pub decl_security: Seq<DeclSecurityRow>,
    pub class_layout: Seq<ClassLayoutRow>,
    pub field_layout: Seq<FieldLayoutRow>,
    pub stand_alone_sig: Seq<StandAloneSigRow>,
    pub event_map: Seq<EventMapRow>,
    pub event: Seq<EventRow>,
    pub property_map: Seq<PropertyMapRow>,
    pub property: Seq<PropertyRow>,
    pub method_semantics: Seq<MethodSemanticsRow>,
    pub method_impl: Seq<MethodImplRow>,
    pub module_ref: Seq<ModuleRefRow>,
    pub type_spec: Seq<TypeSpecRow>,
    pub impl_map: Seq<ImplMapRow>,
    pub field_rva: Seq<FieldRvaRow>,
    pub assembly: Seq<AssemblyRow>,
    pub assembly_processor: Seq<AssemblyProcessorRow>,
    pub assembly_os: Seq<AssemblyOsRow>,
    pub assembly_ref: Seq<AssemblyRefRow>,
    pub assembly_ref_processor: Seq<AssemblyRefProcessorRow>,
    pub assembly_ref_os: Seq<AssemblyRefOsRow>,
    pub file: Seq<FileRow>,
    pub exported_type: Seq<ExportedTypeRow>,
    pub manifest_resource: Seq<ManifestResourceRow>,
    pub nested_class: Seq<NestedClassRow>,
    pub generic_param: Seq<GenericParamRow>,
    pub method_spec: Seq<MethodSpecRow>,
    pub generic_param_constraint: Seq<GenericParamConstraintRow>,
    /// The texts of `ldstr` in the bodies that have a reading, by token, each once.
    pub user: Seq<UserText>,
}
