//! Which members each kind of core type has.

ghost use Rattle.std.specs.Prelude.{◌≡◌, ◌≤◌, length};
ghost use Rattle.il_base.specs.core_table.Members.{fields_of, methods_of};

use crate::core_table::methods::{
    ARRAY_METHODS, ATTRIBUTE_METHODS, ENUM_METHODS, EXCEPTION_CONSTRUCTORS, EXCEPTION_METHODS,
    IDISPOSABLE_METHODS, INT32_METHODS, OBJECT_METHODS, PRIMITIVE_METHODS, RUNTIME_HELPERS_METHODS,
    VALUE_TYPE_METHODS,
};
use crate::core_table::reflection_methods::{
    ACTIVATOR_METHODS, FIELD_INFO_METHODS, MEMBER_INFO_METHODS, METHOD_BASE_METHODS,
    METHOD_INFO_METHODS, PROPERTY_INFO_METHODS, TYPE_METHODS,
};
use crate::core_table::shape::{CoreField, CoreMembers, CoreMethod};
use crate::core_table::text_methods::{CONSOLE_METHODS, STRING_FIELDS, STRING_METHODS};

impl CoreMembers {
    /// The methods, in the order of their rows.
    #[tactic(auto, unfolding(crate::specs::core_table::Members::methods_of))]
    pub fn methods(self) -> &'static [CoreMethod]
        ensures value { result.now ≡ methods_of self }
        ensures few { length result.now ≤ 32 }
    {
        match self {
            CoreMembers::NoMethods => &[],
            CoreMembers::Object => &OBJECT_METHODS,
            CoreMembers::ValueType => &VALUE_TYPE_METHODS,
            CoreMembers::Enum => &ENUM_METHODS,
            CoreMembers::Primitive => &PRIMITIVE_METHODS,
            CoreMembers::Int32 => &INT32_METHODS,
            CoreMembers::String => &STRING_METHODS,
            CoreMembers::Array => &ARRAY_METHODS,
            CoreMembers::Console => &CONSOLE_METHODS,
            CoreMembers::Exception => &EXCEPTION_METHODS,
            CoreMembers::Constructors => &EXCEPTION_CONSTRUCTORS,
            CoreMembers::Type => &TYPE_METHODS,
            CoreMembers::MemberInfo => &MEMBER_INFO_METHODS,
            CoreMembers::MethodBase => &METHOD_BASE_METHODS,
            CoreMembers::MethodInfo => &METHOD_INFO_METHODS,
            CoreMembers::FieldInfo => &FIELD_INFO_METHODS,
            CoreMembers::PropertyInfo => &PROPERTY_INFO_METHODS,
            CoreMembers::Activator => &ACTIVATOR_METHODS,
            CoreMembers::RuntimeHelpers => &RUNTIME_HELPERS_METHODS,
            CoreMembers::IDisposable => &IDISPOSABLE_METHODS,
            CoreMembers::Attribute => &ATTRIBUTE_METHODS,
        }
    }

    /// The fields, in the order of their rows.
    #[tactic(auto, unfolding(crate::specs::core_table::Members::fields_of))]
    pub fn fields(self) -> &'static [CoreField]
        ensures value { result.now ≡ fields_of self }
        ensures few { length result.now ≤ 32 }
    {
        match self {
            CoreMembers::String => &STRING_FIELDS,
            CoreMembers::NoMethods
            | CoreMembers::Object
            | CoreMembers::ValueType
            | CoreMembers::Enum
            | CoreMembers::Primitive
            | CoreMembers::Int32
            | CoreMembers::Array
            | CoreMembers::Console
            | CoreMembers::Exception
            | CoreMembers::Constructors
            | CoreMembers::Type
            | CoreMembers::MemberInfo
            | CoreMembers::MethodBase
            | CoreMembers::MethodInfo
            | CoreMembers::FieldInfo
            | CoreMembers::PropertyInfo
            | CoreMembers::Activator
            | CoreMembers::RuntimeHelpers
            | CoreMembers::IDisposable
            | CoreMembers::Attribute => &[],
        }
    }
}
