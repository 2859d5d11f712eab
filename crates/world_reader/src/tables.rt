//! The rows of all tables, in groups.

ghost use Rattle.std.specs.Prelude.{◌≡◌, IfOk};
ghost use Rattle.world_reader.specs.Tables as tables;

use crate::cell_reader::Assembly;
use crate::descriptor::descriptor_of;
use crate::field_data::field_rva_rows;
use crate::layouts::Layouts;
use crate::row_reader::{all_rows, signature_rows};
use crate::user_strings::texts_of;
use il_base::world_model::{
    AssemblyOsRow, AssemblyProcessorRow, AssemblyRefOsRow, AssemblyRefProcessorRow, AssemblyRefRow,
    AssemblyRow, ClassLayoutRow, ConstantRow, CustomAttributeRow, DeclSecurityRow, EventMapRow,
    EventRow, ExportedTypeRow, FieldLayoutRow, FieldMarshalRow, FieldRow, FieldRvaRow, FileRow,
    GenericParamConstraintRow, GenericParamRow, ImplMapRow, InterfaceImplRow, ManifestResourceRow,
    MemberRefRow, MethodDefRow, MethodImplRow, MethodSemanticsRow, MethodSpecRow, ModuleRefRow,
    ModuleRow, NestedClassRow, ParamRow, PropertyMapRow, PropertyRow, StandAloneSigRow, TypeDefRow,
    TypeRefRow, TypeSpecRow, UserText,
};
use il_base::{NoMemory, Seq, Text};
use std::alloc::Global;

/// The tables of assemblies and modules.
#[derive(Drop)]
pub struct AssemblyTables {
    pub module: Seq<ModuleRow>,
    pub module_ref: Seq<ModuleRefRow>,
    pub assembly: Seq<AssemblyRow>,
    pub assembly_processor: Seq<AssemblyProcessorRow>,
    pub assembly_os: Seq<AssemblyOsRow>,
    pub assembly_ref: Seq<AssemblyRefRow>,
    pub assembly_ref_processor: Seq<AssemblyRefProcessorRow>,
    pub assembly_ref_os: Seq<AssemblyRefOsRow>,
}

/// The tables of files and resources, and the embedded descriptor.
#[derive(Drop)]
pub struct FileTables {
    pub file: Seq<FileRow>,
    pub exported_type: Seq<ExportedTypeRow>,
    pub manifest_resource: Seq<ManifestResourceRow>,
    pub descriptor: Option<Text>,
}

/// The tables of types.
#[derive(Drop)]
pub struct TypeTables {
    pub type_ref: Seq<TypeRefRow>,
    pub type_def: Seq<TypeDefRow>,
    pub interface_impl: Seq<InterfaceImplRow>,
    pub type_spec: Seq<TypeSpecRow>,
    pub nested_class: Seq<NestedClassRow>,
    pub generic_param: Seq<GenericParamRow>,
    pub generic_param_constraint: Seq<GenericParamConstraintRow>,
}

/// The tables of fields and of their layout.
#[derive(Drop)]
pub struct FieldTables {
    pub field: Seq<FieldRow>,
    pub class_layout: Seq<ClassLayoutRow>,
    pub field_rva: Seq<FieldRvaRow>,
    pub field_layout: Seq<FieldLayoutRow>,
    pub field_marshal: Seq<FieldMarshalRow>,
}

/// The tables of methods, and the texts that their bodies load.
#[derive(Drop)]
pub struct MethodTables {
    pub method_def: Seq<MethodDefRow>,
    pub param: Seq<ParamRow>,
    pub method_impl: Seq<MethodImplRow>,
    pub method_spec: Seq<MethodSpecRow>,
    pub stand_alone_sig: Seq<StandAloneSigRow>,
    pub user: Seq<UserText>,
}

/// The tables of properties and events.
#[derive(Drop)]
pub struct PropertyTables {
    pub event_map: Seq<EventMapRow>,
    pub event: Seq<EventRow>,
    pub property_map: Seq<PropertyMapRow>,
    pub property: Seq<PropertyRow>,
    pub method_semantics: Seq<MethodSemanticsRow>,
}

/// References to members, and the tables whose rows belong to members of several kinds.
#[derive(Drop)]
pub struct ExtraTables {
    pub member_ref: Seq<MemberRefRow>,
    pub constant: Seq<ConstantRow>,
    pub custom_attribute: Seq<CustomAttributeRow>,
    pub decl_security: Seq<DeclSecurityRow>,
    pub impl_map: Seq<ImplMapRow>,
}

/// The tables of all groups.
#[derive(Drop)]
pub struct AllTables {
    pub assemblies: AssemblyTables,
    pub files: FileTables,
    pub types: TypeTables,
    pub fields: FieldTables,
    pub methods: MethodTables,
    pub properties: PropertyTables,
    pub extras: ExtraTables,
}

/// The tables of assemblies and modules.
#[tactic(auto, unfolding(crate::specs::Tables::assembly_tables))]
fn assembly_tables(alloc: Global, file: &Assembly) -> Result<AssemblyTables, NoMemory>
    ensures { IfOk result (λ t. t ≡ tables.assembly_tables file.now) }
{
    let module = all_rows(alloc, file)?;
    let module_ref = all_rows(alloc, file)?;
    let assembly = all_rows(alloc, file)?;
    let assembly_processor = all_rows(alloc, file)?;
    let assembly_os = all_rows(alloc, file)?;
    let assembly_ref = all_rows(alloc, file)?;
    let assembly_ref_processor = all_rows(alloc, file)?;
    let assembly_ref_os = all_rows(alloc, file)?;
    Ok(AssemblyTables {
        module,
        module_ref,
        assembly,
        assembly_processor,
        assembly_os,
        assembly_ref,
        assembly_ref_processor,
        assembly_ref_os,
    })
}

/// The tables of files and resources, and the embedded descriptor.
#[tactic(auto, unfolding(crate::specs::Tables::file_tables))]
fn file_tables(alloc: Global, file: &Assembly) -> Result<FileTables, NoMemory>
    ensures { IfOk result (λ t. t ≡ tables.file_tables file.now) }
{
    let file_rows = all_rows(alloc, file)?;
    let exported_type = all_rows(alloc, file)?;
    let manifest_resource = all_rows(alloc, file)?;
    let descriptor = descriptor_of(
        alloc,
        manifest_resource.as_slice(),
        file.image().resources(),
    )?;
    Ok(FileTables {
        file: file_rows,
        exported_type,
        manifest_resource,
        descriptor,
    })
}

/// The tables of types.
#[tactic(auto, unfolding(crate::specs::Tables::type_tables))]
fn type_tables(alloc: Global, file: &Assembly) -> Result<TypeTables, NoMemory>
    ensures { IfOk result (λ t. t ≡ tables.type_tables file.now) }
{
    let type_ref = all_rows(alloc, file)?;
    let type_def = all_rows(alloc, file)?;
    let interface_impl = all_rows(alloc, file)?;
    let type_spec = signature_rows(alloc, file)?;
    let nested_class = all_rows(alloc, file)?;
    let generic_param = all_rows(alloc, file)?;
    let generic_param_constraint = all_rows(alloc, file)?;
    Ok(TypeTables {
        type_ref,
        type_def,
        interface_impl,
        type_spec,
        nested_class,
        generic_param,
        generic_param_constraint,
    })
}

/// The tables of fields and of their layout.
#[tactic(auto, unfolding(crate::specs::Tables::field_tables))]
fn field_tables(alloc: Global, file: &Assembly) -> Result<FieldTables, NoMemory>
    ensures { IfOk result (λ t. t ≡ tables.field_tables file.now) }
{
    let field = signature_rows(alloc, file)?;
    let layouts = Layouts::of(alloc, all_rows(alloc, file)?)?;
    let field_rva = field_rva_rows(alloc, file, &layouts, field.as_slice())?;
    let field_layout = all_rows(alloc, file)?;
    let field_marshal = all_rows(alloc, file)?;
    Ok(FieldTables {
        field,
        class_layout: layouts.into_rows(),
        field_rva,
        field_layout,
        field_marshal,
    })
}

/// The tables of methods, and the texts that their bodies load.
#[tactic(auto, unfolding(crate::specs::Tables::method_tables))]
fn method_tables(alloc: Global, file: &Assembly) -> Result<MethodTables, NoMemory>
    ensures { IfOk result (λ t. t ≡ tables.method_tables file.now) }
{
    let method_def = signature_rows(alloc, file)?;
    let param = all_rows(alloc, file)?;
    let method_impl = all_rows(alloc, file)?;
    let method_spec = signature_rows(alloc, file)?;
    let stand_alone_sig = signature_rows(alloc, file)?;
    let user = texts_of(alloc, file, method_def.as_slice())?;
    Ok(MethodTables {
        method_def,
        param,
        method_impl,
        method_spec,
        stand_alone_sig,
        user,
    })
}

/// The tables of properties and events.
#[tactic(auto, unfolding(crate::specs::Tables::property_tables))]
fn property_tables(alloc: Global, file: &Assembly) -> Result<PropertyTables, NoMemory>
    ensures { IfOk result (λ t. t ≡ tables.property_tables file.now) }
{
    let event_map = all_rows(alloc, file)?;
    let event = all_rows(alloc, file)?;
    let property_map = all_rows(alloc, file)?;
    let property = signature_rows(alloc, file)?;
    let method_semantics = all_rows(alloc, file)?;
    Ok(PropertyTables {
        event_map,
        event,
        property_map,
        property,
        method_semantics,
    })
}

/// References to members, and the tables whose rows belong to members of several kinds.
#[tactic(auto, unfolding(crate::specs::Tables::extra_tables))]
fn extra_tables(alloc: Global, file: &Assembly) -> Result<ExtraTables, NoMemory>
    ensures { IfOk result (λ t. t ≡ tables.extra_tables file.now) }
{
    let member_ref = signature_rows(alloc, file)?;
    let constant = all_rows(alloc, file)?;
    let custom_attribute = all_rows(alloc, file)?;
    let decl_security = all_rows(alloc, file)?;
    let impl_map = all_rows(alloc, file)?;
    Ok(ExtraTables {
        member_ref,
        constant,
        custom_attribute,
        decl_security,
        impl_map,
    })
}

/// All tables.
#[tactic(auto, unfolding(crate::specs::Tables::all_tables))]
pub fn all_tables(alloc: Global, file: &Assembly) -> Result<AllTables, NoMemory>
    ensures { IfOk result (λ t. t ≡ tables.all_tables file.now) }
{
    let assemblies = assembly_tables(alloc, file)?;
    let files = file_tables(alloc, file)?;
    let types = type_tables(alloc, file)?;
    let fields = field_tables(alloc, file)?;
    let methods = method_tables(alloc, file)?;
    let properties = property_tables(alloc, file)?;
    let extras = extra_tables(alloc, file)?;
    Ok(AllTables {
        assemblies,
        files,
        types,
        fields,
        methods,
        properties,
        extras,
    })
}
