//! The members of reflection, each list in the table's order: of Type, MemberInfo, MethodBase, MethodInfo, FieldInfo,
//! PropertyInfo and Activator. Of the virtual methods that .NET has here the table has those of Object as such.

use crate::core_table::forms::{
    ACCESSOR, BOOL, FIELD, FIELDS, INSTANCE, METHOD, METHOD_PARAM, METHODS, OBJ, OBJS, OPERATOR,
    OVERRIDE, PROPERTIES, PROPERTY, STATIC, STR, TYP, TYPE_HANDLE, VOID,
};
use crate::core_table::names::CoreName;
use crate::core_table::shape::{CoreMethod, CoreParams};

/// Type: a runtime type.
pub const TYPE_METHODS: [CoreMethod; 20] = [
    CoreMethod {
        name: CoreName::GetTypeFromHandle,
        flags: STATIC,
        type_params: 0,
        ret: TYP,
        params: CoreParams::One(TYPE_HANDLE),
    },
    CoreMethod {
        name: CoreName::GetType,
        flags: STATIC,
        type_params: 0,
        ret: TYP,
        params: CoreParams::One(STR),
    },
    CoreMethod {
        name: CoreName::GetType,
        flags: STATIC,
        type_params: 0,
        ret: TYP,
        params: CoreParams::Two(STR, BOOL),
    },
    CoreMethod {
        name: CoreName::GetNamespace,
        flags: ACCESSOR,
        type_params: 0,
        ret: STR,
        params: CoreParams::Zero,
    },
    CoreMethod {
        name: CoreName::GetFullName,
        flags: ACCESSOR,
        type_params: 0,
        ret: STR,
        params: CoreParams::Zero,
    },
    CoreMethod {
        name: CoreName::ToString,
        flags: OVERRIDE,
        type_params: 0,
        ret: STR,
        params: CoreParams::Zero,
    },
    CoreMethod {
        name: CoreName::OpEquality,
        flags: OPERATOR,
        type_params: 0,
        ret: BOOL,
        params: CoreParams::Two(TYP, TYP),
    },
    CoreMethod {
        name: CoreName::OpInequality,
        flags: OPERATOR,
        type_params: 0,
        ret: BOOL,
        params: CoreParams::Two(TYP, TYP),
    },
    CoreMethod {
        name: CoreName::Equals,
        flags: OVERRIDE,
        type_params: 0,
        ret: BOOL,
        params: CoreParams::One(OBJ),
    },
    CoreMethod {
        name: CoreName::IsAssignableFrom,
        flags: INSTANCE,
        type_params: 0,
        ret: BOOL,
        params: CoreParams::One(TYP),
    },
    CoreMethod {
        name: CoreName::IsInstanceOfType,
        flags: INSTANCE,
        type_params: 0,
        ret: BOOL,
        params: CoreParams::One(OBJ),
    },
    CoreMethod {
        name: CoreName::GetIsValueType,
        flags: ACCESSOR,
        type_params: 0,
        ret: BOOL,
        params: CoreParams::Zero,
    },
    CoreMethod {
        name: CoreName::GetIsInterface,
        flags: ACCESSOR,
        type_params: 0,
        ret: BOOL,
        params: CoreParams::Zero,
    },
    CoreMethod {
        name: CoreName::GetIsArray,
        flags: ACCESSOR,
        type_params: 0,
        ret: BOOL,
        params: CoreParams::Zero,
    },
    CoreMethod {
        name: CoreName::GetMethod,
        flags: INSTANCE,
        type_params: 0,
        ret: METHOD,
        params: CoreParams::One(STR),
    },
    CoreMethod {
        name: CoreName::GetMethods,
        flags: INSTANCE,
        type_params: 0,
        ret: METHODS,
        params: CoreParams::Zero,
    },
    CoreMethod {
        name: CoreName::GetField,
        flags: INSTANCE,
        type_params: 0,
        ret: FIELD,
        params: CoreParams::One(STR),
    },
    CoreMethod {
        name: CoreName::GetFields,
        flags: INSTANCE,
        type_params: 0,
        ret: FIELDS,
        params: CoreParams::Zero,
    },
    CoreMethod {
        name: CoreName::GetProperty,
        flags: INSTANCE,
        type_params: 0,
        ret: PROPERTY,
        params: CoreParams::One(STR),
    },
    CoreMethod {
        name: CoreName::GetProperties,
        flags: INSTANCE,
        type_params: 0,
        ret: PROPERTIES,
        params: CoreParams::Zero,
    },
];

/// MemberInfo: a type or a member of one.
pub const MEMBER_INFO_METHODS: [CoreMethod; 2] = [
    CoreMethod {
        name: CoreName::GetName,
        flags: ACCESSOR,
        type_params: 0,
        ret: STR,
        params: CoreParams::Zero,
    },
    CoreMethod {
        name: CoreName::GetDeclaringType,
        flags: ACCESSOR,
        type_params: 0,
        ret: TYP,
        params: CoreParams::Zero,
    },
];

/// MethodBase.
pub const METHOD_BASE_METHODS: [CoreMethod; 2] = [
    CoreMethod {
        name: CoreName::Invoke,
        flags: INSTANCE,
        type_params: 0,
        ret: OBJ,
        params: CoreParams::Two(OBJ, OBJS),
    },
    CoreMethod {
        name: CoreName::GetIsStatic,
        flags: ACCESSOR,
        type_params: 0,
        ret: BOOL,
        params: CoreParams::Zero,
    },
];

/// MethodInfo.
pub const METHOD_INFO_METHODS: [CoreMethod; 3] = [
    CoreMethod {
        name: CoreName::GetReturnType,
        flags: ACCESSOR,
        type_params: 0,
        ret: TYP,
        params: CoreParams::Zero,
    },
    CoreMethod {
        name: CoreName::OpEquality,
        flags: OPERATOR,
        type_params: 0,
        ret: BOOL,
        params: CoreParams::Two(METHOD, METHOD),
    },
    CoreMethod {
        name: CoreName::OpInequality,
        flags: OPERATOR,
        type_params: 0,
        ret: BOOL,
        params: CoreParams::Two(METHOD, METHOD),
    },
];

/// FieldInfo.
pub const FIELD_INFO_METHODS: [CoreMethod; 5] = [
    CoreMethod {
        name: CoreName::GetValue,
        flags: INSTANCE,
        type_params: 0,
        ret: OBJ,
        params: CoreParams::One(OBJ),
    },
    CoreMethod {
        name: CoreName::SetValue,
        flags: INSTANCE,
        type_params: 0,
        ret: VOID,
        params: CoreParams::Two(OBJ, OBJ),
    },
    CoreMethod {
        name: CoreName::GetFieldType,
        flags: ACCESSOR,
        type_params: 0,
        ret: TYP,
        params: CoreParams::Zero,
    },
    CoreMethod {
        name: CoreName::OpEquality,
        flags: OPERATOR,
        type_params: 0,
        ret: BOOL,
        params: CoreParams::Two(FIELD, FIELD),
    },
    CoreMethod {
        name: CoreName::OpInequality,
        flags: OPERATOR,
        type_params: 0,
        ret: BOOL,
        params: CoreParams::Two(FIELD, FIELD),
    },
];

/// PropertyInfo.
pub const PROPERTY_INFO_METHODS: [CoreMethod; 5] = [
    CoreMethod {
        name: CoreName::GetValue,
        flags: INSTANCE,
        type_params: 0,
        ret: OBJ,
        params: CoreParams::One(OBJ),
    },
    CoreMethod {
        name: CoreName::SetValue,
        flags: INSTANCE,
        type_params: 0,
        ret: VOID,
        params: CoreParams::Two(OBJ, OBJ),
    },
    CoreMethod {
        name: CoreName::GetPropertyType,
        flags: ACCESSOR,
        type_params: 0,
        ret: TYP,
        params: CoreParams::Zero,
    },
    CoreMethod {
        name: CoreName::OpEquality,
        flags: OPERATOR,
        type_params: 0,
        ret: BOOL,
        params: CoreParams::Two(PROPERTY, PROPERTY),
    },
    CoreMethod {
        name: CoreName::OpInequality,
        flags: OPERATOR,
        type_params: 0,
        ret: BOOL,
        params: CoreParams::Two(PROPERTY, PROPERTY),
    },
];

/// Activator: `CreateInstance(Type)` and `CreateInstance<T>()`, which returns T.
pub const ACTIVATOR_METHODS: [CoreMethod; 2] = [
    CoreMethod {
        name: CoreName::CreateInstance,
        flags: STATIC,
        type_params: 0,
        ret: OBJ,
        params: CoreParams::One(TYP),
    },
    CoreMethod {
        name: CoreName::CreateInstance,
        flags: STATIC,
        type_params: 1,
        ret: METHOD_PARAM,
        params: CoreParams::Zero,
    },
];
