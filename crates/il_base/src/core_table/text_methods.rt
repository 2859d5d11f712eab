//! The members of String and Console, each list in the table's order.

use crate::core_table::forms::{
    ACCESSOR, BOOL, CHAR, INSTANCE, INT, LONG, OBJ, OPERATOR, OVERRIDE, STATIC, STR, VOID,
};
use crate::core_table::names::CoreName;
use crate::core_table::shape::{CoreField, CoreMethod, CoreParams};

/// String.
pub const STRING_METHODS: [CoreMethod; 16] = [
    CoreMethod {
        name: CoreName::GetLength,
        flags: ACCESSOR,
        type_params: 0,
        ret: INT,
        params: CoreParams::Zero,
    },
    CoreMethod {
        name: CoreName::GetChars,
        flags: ACCESSOR,
        type_params: 0,
        ret: CHAR,
        params: CoreParams::One(INT),
    },
    CoreMethod {
        name: CoreName::Concat,
        flags: STATIC,
        type_params: 0,
        ret: STR,
        params: CoreParams::Two(STR, STR),
    },
    CoreMethod {
        name: CoreName::Concat,
        flags: STATIC,
        type_params: 0,
        ret: STR,
        params: CoreParams::Three(STR, STR, STR),
    },
    CoreMethod {
        name: CoreName::Concat,
        flags: STATIC,
        type_params: 0,
        ret: STR,
        params: CoreParams::Four(STR, STR, STR, STR),
    },
    CoreMethod {
        name: CoreName::OpEquality,
        flags: OPERATOR,
        type_params: 0,
        ret: BOOL,
        params: CoreParams::Two(STR, STR),
    },
    CoreMethod {
        name: CoreName::OpInequality,
        flags: OPERATOR,
        type_params: 0,
        ret: BOOL,
        params: CoreParams::Two(STR, STR),
    },
    CoreMethod {
        name: CoreName::Equals,
        flags: INSTANCE,
        type_params: 0,
        ret: BOOL,
        params: CoreParams::One(STR),
    },
    CoreMethod {
        name: CoreName::Equals,
        flags: OVERRIDE,
        type_params: 0,
        ret: BOOL,
        params: CoreParams::One(OBJ),
    },
    CoreMethod {
        name: CoreName::ToString,
        flags: OVERRIDE,
        type_params: 0,
        ret: STR,
        params: CoreParams::Zero,
    },
    CoreMethod {
        name: CoreName::GetHashCode,
        flags: OVERRIDE,
        type_params: 0,
        ret: INT,
        params: CoreParams::Zero,
    },
    CoreMethod {
        name: CoreName::Substring,
        flags: INSTANCE,
        type_params: 0,
        ret: STR,
        params: CoreParams::One(INT),
    },
    CoreMethod {
        name: CoreName::Substring,
        flags: INSTANCE,
        type_params: 0,
        ret: STR,
        params: CoreParams::Two(INT, INT),
    },
    CoreMethod {
        name: CoreName::IndexOf,
        flags: INSTANCE,
        type_params: 0,
        ret: INT,
        params: CoreParams::One(CHAR),
    },
    CoreMethod {
        name: CoreName::IsNullOrEmpty,
        flags: STATIC,
        type_params: 0,
        ret: BOOL,
        params: CoreParams::One(STR),
    },
    CoreMethod {
        name: CoreName::CompareOrdinal,
        flags: STATIC,
        type_params: 0,
        ret: INT,
        params: CoreParams::Two(STR, STR),
    },
];

/// Console.
pub const CONSOLE_METHODS: [CoreMethod; 15] = [
    CoreMethod {
        name: CoreName::WriteLine,
        flags: STATIC,
        type_params: 0,
        ret: VOID,
        params: CoreParams::Zero,
    },
    CoreMethod {
        name: CoreName::WriteLine,
        flags: STATIC,
        type_params: 0,
        ret: VOID,
        params: CoreParams::One(STR),
    },
    CoreMethod {
        name: CoreName::WriteLine,
        flags: STATIC,
        type_params: 0,
        ret: VOID,
        params: CoreParams::One(INT),
    },
    CoreMethod {
        name: CoreName::WriteLine,
        flags: STATIC,
        type_params: 0,
        ret: VOID,
        params: CoreParams::One(LONG),
    },
    CoreMethod {
        name: CoreName::WriteLine,
        flags: STATIC,
        type_params: 0,
        ret: VOID,
        params: CoreParams::One(BOOL),
    },
    CoreMethod {
        name: CoreName::WriteLine,
        flags: STATIC,
        type_params: 0,
        ret: VOID,
        params: CoreParams::One(CHAR),
    },
    CoreMethod {
        name: CoreName::WriteLine,
        flags: STATIC,
        type_params: 0,
        ret: VOID,
        params: CoreParams::One(OBJ),
    },
    CoreMethod {
        name: CoreName::Write,
        flags: STATIC,
        type_params: 0,
        ret: VOID,
        params: CoreParams::One(STR),
    },
    CoreMethod {
        name: CoreName::Write,
        flags: STATIC,
        type_params: 0,
        ret: VOID,
        params: CoreParams::One(INT),
    },
    CoreMethod {
        name: CoreName::Write,
        flags: STATIC,
        type_params: 0,
        ret: VOID,
        params: CoreParams::One(LONG),
    },
    CoreMethod {
        name: CoreName::Write,
        flags: STATIC,
        type_params: 0,
        ret: VOID,
        params: CoreParams::One(BOOL),
    },
    CoreMethod {
        name: CoreName::Write,
        flags: STATIC,
        type_params: 0,
        ret: VOID,
        params: CoreParams::One(CHAR),
    },
    CoreMethod {
        name: CoreName::Write,
        flags: STATIC,
        type_params: 0,
        ret: VOID,
        params: CoreParams::One(OBJ),
    },
    CoreMethod {
        name: CoreName::ReadLine,
        flags: STATIC,
        type_params: 0,
        ret: STR,
        params: CoreParams::Zero,
    },
    CoreMethod {
        name: CoreName::Read,
        flags: STATIC,
        type_params: 0,
        ret: INT,
        params: CoreParams::Zero,
    },
];

/// String: `Empty`, public static initonly (II.23.1.5).
pub const STRING_FIELDS: [CoreField; 1] = [CoreField {
    name: CoreName::Empty,
    flags: 0x0036,
    signature: STR,
}];
