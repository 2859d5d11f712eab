//! The methods of the core table but for those of String, Console and reflection, each list in the table's order.

use crate::core_table::forms::{
    ABSTRACT, ACCESSOR, ARR, BOOL, CONSTRUCTOR, EXC, FAMILY_CONSTRUCTOR, FIELD_HANDLE, FINALIZER,
    INSTANCE, INT, OBJ, OVERRIDE, STATIC, STR, TYP, VIRTUAL, VIRTUAL_ACCESSOR, VOID,
};
use crate::core_table::names::CoreName;
use crate::core_table::shape::{CoreMethod, CoreParams};

/// Object: any object.
pub const OBJECT_METHODS: [CoreMethod; 8] = [
    CoreMethod {
        name: CoreName::Constructor,
        flags: CONSTRUCTOR,
        type_params: 0,
        ret: VOID,
        params: CoreParams::Zero,
    },
    CoreMethod {
        name: CoreName::ToString,
        flags: VIRTUAL,
        type_params: 0,
        ret: STR,
        params: CoreParams::Zero,
    },
    CoreMethod {
        name: CoreName::Equals,
        flags: VIRTUAL,
        type_params: 0,
        ret: BOOL,
        params: CoreParams::One(OBJ),
    },
    CoreMethod {
        name: CoreName::GetHashCode,
        flags: VIRTUAL,
        type_params: 0,
        ret: INT,
        params: CoreParams::Zero,
    },
    CoreMethod {
        name: CoreName::Finalize,
        flags: FINALIZER,
        type_params: 0,
        ret: VOID,
        params: CoreParams::Zero,
    },
    CoreMethod {
        name: CoreName::GetType,
        flags: INSTANCE,
        type_params: 0,
        ret: TYP,
        params: CoreParams::Zero,
    },
    CoreMethod {
        name: CoreName::Equals,
        flags: STATIC,
        type_params: 0,
        ret: BOOL,
        params: CoreParams::Two(OBJ, OBJ),
    },
    CoreMethod {
        name: CoreName::ReferenceEquals,
        flags: STATIC,
        type_params: 0,
        ret: BOOL,
        params: CoreParams::Two(OBJ, OBJ),
    },
];

/// ValueType.
pub const VALUE_TYPE_METHODS: [CoreMethod; 2] = [
    CoreMethod {
        name: CoreName::Equals,
        flags: OVERRIDE,
        type_params: 0,
        ret: BOOL,
        params: CoreParams::One(OBJ),
    },
    CoreMethod {
        name: CoreName::GetHashCode,
        flags: OVERRIDE,
        type_params: 0,
        ret: INT,
        params: CoreParams::Zero,
    },
];

/// Enum.
pub const ENUM_METHODS: [CoreMethod; 3] = [
    CoreMethod {
        name: CoreName::ToString,
        flags: OVERRIDE,
        type_params: 0,
        ret: STR,
        params: CoreParams::Zero,
    },
    CoreMethod {
        name: CoreName::Equals,
        flags: OVERRIDE,
        type_params: 0,
        ret: BOOL,
        params: CoreParams::One(OBJ),
    },
    CoreMethod {
        name: CoreName::GetHashCode,
        flags: OVERRIDE,
        type_params: 0,
        ret: INT,
        params: CoreParams::Zero,
    },
];

/// Boolean, Char and the integers but for Int32.
pub const PRIMITIVE_METHODS: [CoreMethod; 3] = [
    CoreMethod {
        name: CoreName::ToString,
        flags: OVERRIDE,
        type_params: 0,
        ret: STR,
        params: CoreParams::Zero,
    },
    CoreMethod {
        name: CoreName::Equals,
        flags: OVERRIDE,
        type_params: 0,
        ret: BOOL,
        params: CoreParams::One(OBJ),
    },
    CoreMethod {
        name: CoreName::GetHashCode,
        flags: OVERRIDE,
        type_params: 0,
        ret: INT,
        params: CoreParams::Zero,
    },
];

/// Int32.
pub const INT32_METHODS: [CoreMethod; 6] = [
    CoreMethod {
        name: CoreName::ToString,
        flags: OVERRIDE,
        type_params: 0,
        ret: STR,
        params: CoreParams::Zero,
    },
    CoreMethod {
        name: CoreName::Equals,
        flags: OVERRIDE,
        type_params: 0,
        ret: BOOL,
        params: CoreParams::One(OBJ),
    },
    CoreMethod {
        name: CoreName::GetHashCode,
        flags: OVERRIDE,
        type_params: 0,
        ret: INT,
        params: CoreParams::Zero,
    },
    CoreMethod {
        name: CoreName::Equals,
        flags: INSTANCE,
        type_params: 0,
        ret: BOOL,
        params: CoreParams::One(INT),
    },
    CoreMethod {
        name: CoreName::CompareTo,
        flags: INSTANCE,
        type_params: 0,
        ret: INT,
        params: CoreParams::One(INT),
    },
    CoreMethod {
        name: CoreName::Parse,
        flags: STATIC,
        type_params: 0,
        ret: INT,
        params: CoreParams::One(STR),
    },
];

/// Array.
pub const ARRAY_METHODS: [CoreMethod; 1] = [CoreMethod {
    name: CoreName::GetLength,
    flags: ACCESSOR,
    type_params: 0,
    ret: INT,
    params: CoreParams::Zero,
}];

/// Exception.
pub const EXCEPTION_METHODS: [CoreMethod; 6] = [
    CoreMethod {
        name: CoreName::Constructor,
        flags: CONSTRUCTOR,
        type_params: 0,
        ret: VOID,
        params: CoreParams::Zero,
    },
    CoreMethod {
        name: CoreName::Constructor,
        flags: CONSTRUCTOR,
        type_params: 0,
        ret: VOID,
        params: CoreParams::One(STR),
    },
    CoreMethod {
        name: CoreName::Constructor,
        flags: CONSTRUCTOR,
        type_params: 0,
        ret: VOID,
        params: CoreParams::Two(STR, EXC),
    },
    CoreMethod {
        name: CoreName::GetMessage,
        flags: VIRTUAL_ACCESSOR,
        type_params: 0,
        ret: STR,
        params: CoreParams::Zero,
    },
    CoreMethod {
        name: CoreName::GetInnerException,
        flags: ACCESSOR,
        type_params: 0,
        ret: EXC,
        params: CoreParams::Zero,
    },
    CoreMethod {
        name: CoreName::ToString,
        flags: OVERRIDE,
        type_params: 0,
        ret: STR,
        params: CoreParams::Zero,
    },
];

/// The exceptions that derive from Exception.
pub const EXCEPTION_CONSTRUCTORS: [CoreMethod; 3] = [
    CoreMethod {
        name: CoreName::Constructor,
        flags: CONSTRUCTOR,
        type_params: 0,
        ret: VOID,
        params: CoreParams::Zero,
    },
    CoreMethod {
        name: CoreName::Constructor,
        flags: CONSTRUCTOR,
        type_params: 0,
        ret: VOID,
        params: CoreParams::One(STR),
    },
    CoreMethod {
        name: CoreName::Constructor,
        flags: CONSTRUCTOR,
        type_params: 0,
        ret: VOID,
        params: CoreParams::Two(STR, EXC),
    },
];

/// RuntimeHelpers.
pub const RUNTIME_HELPERS_METHODS: [CoreMethod; 1] = [CoreMethod {
    name: CoreName::InitializeArray,
    flags: STATIC,
    type_params: 0,
    ret: VOID,
    params: CoreParams::Two(ARR, FIELD_HANDLE),
}];

/// IDisposable.
pub const IDISPOSABLE_METHODS: [CoreMethod; 1] = [CoreMethod {
    name: CoreName::Dispose,
    flags: ABSTRACT,
    type_params: 0,
    ret: VOID,
    params: CoreParams::Zero,
}];

/// Attribute.
pub const ATTRIBUTE_METHODS: [CoreMethod; 1] = [CoreMethod {
    name: CoreName::Constructor,
    flags: FAMILY_CONSTRUCTOR,
    type_params: 0,
    ret: VOID,
    params: CoreParams::Zero,
}];
