//! What the members of the core library do, by their types, names and parameters.

ghost use Rattle.std.specs.Prelude.{◌≡◌};
ghost use Rattle.rules.specs.view_rules.Members.{equals_by, printed_by, prints_by, object_call, primitive_call, string_call, console_call, text_call, exception_call, type_call, info_call, member_info_call, activator_call, call_by};

use il_base::cil_values::{CoreCall, MemberKind, Printed};
use il_base::core_table::{CoreName, CoreParams, CoreSig};
use il_base::element;

/// `Equals(object)`, or an `Equals` of a type's own.
fn equals_by(sig: CoreSig, any: CoreCall, own: CoreCall) -> CoreCall
    ensures { result ≡ equals_by sig any own }
{
    match sig {
        CoreSig::Prim(code) => { if code == element::OBJECT { any } else { own } }
        CoreSig::Class(_)
        | CoreSig::Value(_)
        | CoreSig::Prims(_)
        | CoreSig::Classes(_)
        | CoreSig::MVar(_) => any,
    }
}

/// What Write and WriteLine print, by their parameter.
fn printed_by(sig: CoreSig) -> Option<Printed>
    ensures { result ≡ printed_by sig }
{
    match sig {
        CoreSig::Prim(code) => {
            if code == element::STRING {
                Some(Printed::OfString)
            } else if code == element::I4 {
                Some(Printed::OfNumber)
            } else if code == element::I8 {
                Some(Printed::OfNumber)
            } else if code == element::BOOLEAN {
                Some(Printed::OfBool)
            } else if code == element::CHAR {
                Some(Printed::OfChar)
            } else if code == element::OBJECT {
                Some(Printed::OfObject)
            } else {
                None
            }
        }
        CoreSig::Class(_)
        | CoreSig::Value(_)
        | CoreSig::Prims(_)
        | CoreSig::Classes(_)
        | CoreSig::MVar(_) => None,
    }
}

/// Write, or WriteLine where the line ends.
fn prints_by(ends: bool, params: CoreParams) -> Option<CoreCall>
    ensures { result ≡ prints_by ends params }
{
    match params {
        CoreParams::Zero => {
            if ends {
                Some(CoreCall::PrintsLineEnd)
            } else {
                None
            }
        }
        CoreParams::One(sig) => match printed_by(sig) {
            None => None,
            Some(printed) => Some(CoreCall::Prints(ends, printed)),
        },
        CoreParams::Two(_, _) | CoreParams::Three(_, _, _) | CoreParams::Four(_, _, _, _) => None,
    }
}

/// Members of Object.
fn object_call(name: CoreName, params: CoreParams) -> Option<CoreCall>
    ensures { result ≡ object_call name params }
{
    match name {
        CoreName::Constructor => Some(CoreCall::Idle),
        CoreName::ToString => Some(CoreCall::TypeName),
        CoreName::Equals => match params {
            CoreParams::One(_) => Some(CoreCall::IsObject),
            CoreParams::Zero
            | CoreParams::Two(_, _)
            | CoreParams::Three(_, _, _)
            | CoreParams::Four(_, _, _, _) => Some(CoreCall::AreEqual),
        },
        CoreName::GetHashCode => Some(CoreCall::Halts),
        CoreName::Finalize => Some(CoreCall::Idle),
        CoreName::GetType => Some(CoreCall::TypeOf),
        CoreName::ReferenceEquals => Some(CoreCall::SameReference),
        CoreName::Module
        | CoreName::Object
        | CoreName::ValueType
        | CoreName::Enum
        | CoreName::Boolean
        | CoreName::Char
        | CoreName::SByte
        | CoreName::Byte
        | CoreName::Int16
        | CoreName::UInt16
        | CoreName::Int32
        | CoreName::UInt32
        | CoreName::Int64
        | CoreName::UInt64
        | CoreName::IntPtr
        | CoreName::UIntPtr
        | CoreName::Void
        | CoreName::RuntimeTypeHandle
        | CoreName::RuntimeFieldHandle
        | CoreName::RuntimeMethodHandle
        | CoreName::String
        | CoreName::Array
        | CoreName::Console
        | CoreName::Exception
        | CoreName::Type
        | CoreName::MemberInfo
        | CoreName::MethodBase
        | CoreName::MethodInfo
        | CoreName::FieldInfo
        | CoreName::PropertyInfo
        | CoreName::Activator
        | CoreName::RuntimeHelpers
        | CoreName::IDisposable
        | CoreName::Attribute
        | CoreName::SystemException
        | CoreName::ApplicationException
        | CoreName::MemberAccessException
        | CoreName::MissingMemberException
        | CoreName::ArgumentException
        | CoreName::ArgumentNullException
        | CoreName::ArgumentOutOfRangeException
        | CoreName::InvalidOperationException
        | CoreName::NotSupportedException
        | CoreName::NotImplementedException
        | CoreName::NullReferenceException
        | CoreName::InvalidCastException
        | CoreName::IndexOutOfRangeException
        | CoreName::ArrayTypeMismatchException
        | CoreName::ArithmeticException
        | CoreName::DivideByZeroException
        | CoreName::OverflowException
        | CoreName::FormatException
        | CoreName::TypeInitializationException
        | CoreName::TypeLoadException
        | CoreName::MissingMethodException
        | CoreName::AmbiguousMatchException
        | CoreName::TargetInvocationException
        | CoreName::TargetParameterCountException
        | CoreName::TargetException
        | CoreName::Nameless
        | CoreName::System
        | CoreName::SystemReflection
        | CoreName::SystemRuntimeCompilerServices
        | CoreName::CompareTo
        | CoreName::Parse
        | CoreName::GetLength
        | CoreName::GetChars
        | CoreName::Concat
        | CoreName::OpEquality
        | CoreName::OpInequality
        | CoreName::Substring
        | CoreName::IndexOf
        | CoreName::IsNullOrEmpty
        | CoreName::CompareOrdinal
        | CoreName::WriteLine
        | CoreName::Write
        | CoreName::ReadLine
        | CoreName::Read
        | CoreName::GetMessage
        | CoreName::GetInnerException
        | CoreName::GetTypeFromHandle
        | CoreName::GetNamespace
        | CoreName::GetFullName
        | CoreName::IsAssignableFrom
        | CoreName::IsInstanceOfType
        | CoreName::GetIsValueType
        | CoreName::GetIsInterface
        | CoreName::GetIsArray
        | CoreName::GetMethod
        | CoreName::GetMethods
        | CoreName::GetField
        | CoreName::GetFields
        | CoreName::GetProperty
        | CoreName::GetProperties
        | CoreName::GetName
        | CoreName::GetDeclaringType
        | CoreName::Invoke
        | CoreName::GetIsStatic
        | CoreName::GetReturnType
        | CoreName::GetValue
        | CoreName::SetValue
        | CoreName::GetFieldType
        | CoreName::GetPropertyType
        | CoreName::CreateInstance
        | CoreName::InitializeArray
        | CoreName::Dispose
        | CoreName::Empty => None,
    }
}

/// Members of Boolean, Char and the integers, by element type.
fn primitive_call(code: u8, name: CoreName, params: CoreParams) -> Option<CoreCall>
    ensures { result ≡ primitive_call code name params }
{
    match name {
        CoreName::ToString => Some(CoreCall::NumberText(code)),
        CoreName::Equals => match params {
            CoreParams::One(sig) => Some(equals_by(
                sig,
                CoreCall::NumberIs(code),
                CoreCall::IntEquals,
            )),
            CoreParams::Zero
            | CoreParams::Two(_, _)
            | CoreParams::Three(_, _, _)
            | CoreParams::Four(_, _, _, _) => None,
        },
        CoreName::GetHashCode => Some(CoreCall::Halts),
        CoreName::CompareTo => Some(CoreCall::IntCompare),
        CoreName::Parse => Some(CoreCall::IntParse),
        CoreName::Module
        | CoreName::Object
        | CoreName::ValueType
        | CoreName::Enum
        | CoreName::Boolean
        | CoreName::Char
        | CoreName::SByte
        | CoreName::Byte
        | CoreName::Int16
        | CoreName::UInt16
        | CoreName::Int32
        | CoreName::UInt32
        | CoreName::Int64
        | CoreName::UInt64
        | CoreName::IntPtr
        | CoreName::UIntPtr
        | CoreName::Void
        | CoreName::RuntimeTypeHandle
        | CoreName::RuntimeFieldHandle
        | CoreName::RuntimeMethodHandle
        | CoreName::String
        | CoreName::Array
        | CoreName::Console
        | CoreName::Exception
        | CoreName::Type
        | CoreName::MemberInfo
        | CoreName::MethodBase
        | CoreName::MethodInfo
        | CoreName::FieldInfo
        | CoreName::PropertyInfo
        | CoreName::Activator
        | CoreName::RuntimeHelpers
        | CoreName::IDisposable
        | CoreName::Attribute
        | CoreName::SystemException
        | CoreName::ApplicationException
        | CoreName::MemberAccessException
        | CoreName::MissingMemberException
        | CoreName::ArgumentException
        | CoreName::ArgumentNullException
        | CoreName::ArgumentOutOfRangeException
        | CoreName::InvalidOperationException
        | CoreName::NotSupportedException
        | CoreName::NotImplementedException
        | CoreName::NullReferenceException
        | CoreName::InvalidCastException
        | CoreName::IndexOutOfRangeException
        | CoreName::ArrayTypeMismatchException
        | CoreName::ArithmeticException
        | CoreName::DivideByZeroException
        | CoreName::OverflowException
        | CoreName::FormatException
        | CoreName::TypeInitializationException
        | CoreName::TypeLoadException
        | CoreName::MissingMethodException
        | CoreName::AmbiguousMatchException
        | CoreName::TargetInvocationException
        | CoreName::TargetParameterCountException
        | CoreName::TargetException
        | CoreName::Nameless
        | CoreName::System
        | CoreName::SystemReflection
        | CoreName::SystemRuntimeCompilerServices
        | CoreName::Constructor
        | CoreName::Finalize
        | CoreName::GetType
        | CoreName::ReferenceEquals
        | CoreName::GetLength
        | CoreName::GetChars
        | CoreName::Concat
        | CoreName::OpEquality
        | CoreName::OpInequality
        | CoreName::Substring
        | CoreName::IndexOf
        | CoreName::IsNullOrEmpty
        | CoreName::CompareOrdinal
        | CoreName::WriteLine
        | CoreName::Write
        | CoreName::ReadLine
        | CoreName::Read
        | CoreName::GetMessage
        | CoreName::GetInnerException
        | CoreName::GetTypeFromHandle
        | CoreName::GetNamespace
        | CoreName::GetFullName
        | CoreName::IsAssignableFrom
        | CoreName::IsInstanceOfType
        | CoreName::GetIsValueType
        | CoreName::GetIsInterface
        | CoreName::GetIsArray
        | CoreName::GetMethod
        | CoreName::GetMethods
        | CoreName::GetField
        | CoreName::GetFields
        | CoreName::GetProperty
        | CoreName::GetProperties
        | CoreName::GetName
        | CoreName::GetDeclaringType
        | CoreName::Invoke
        | CoreName::GetIsStatic
        | CoreName::GetReturnType
        | CoreName::GetValue
        | CoreName::SetValue
        | CoreName::GetFieldType
        | CoreName::GetPropertyType
        | CoreName::CreateInstance
        | CoreName::InitializeArray
        | CoreName::Dispose
        | CoreName::Empty => None,
    }
}

/// Members of String.
fn string_call(name: CoreName, params: CoreParams) -> Option<CoreCall>
    ensures { result ≡ string_call name params }
{
    match name {
        CoreName::GetLength => Some(CoreCall::StringLength),
        CoreName::GetChars => Some(CoreCall::StringUnit),
        CoreName::Concat => Some(CoreCall::StringConcat),
        CoreName::OpEquality => Some(CoreCall::StringSame),
        CoreName::OpInequality => Some(CoreCall::StringOther),
        CoreName::Equals => match params {
            CoreParams::One(sig) => Some(equals_by(sig, CoreCall::StringIs, CoreCall::StringSame)),
            CoreParams::Zero
            | CoreParams::Two(_, _)
            | CoreParams::Three(_, _, _)
            | CoreParams::Four(_, _, _, _) => None,
        },
        CoreName::ToString => Some(CoreCall::StringItself),
        CoreName::GetHashCode => Some(CoreCall::Halts),
        CoreName::Substring => match params {
            CoreParams::One(_) => Some(CoreCall::StringFrom),
            CoreParams::Zero
            | CoreParams::Two(_, _)
            | CoreParams::Three(_, _, _)
            | CoreParams::Four(_, _, _, _) => Some(CoreCall::StringPart),
        },
        CoreName::IndexOf => Some(CoreCall::StringIndex),
        CoreName::IsNullOrEmpty => Some(CoreCall::StringIsEmpty),
        CoreName::CompareOrdinal => Some(CoreCall::StringCompare),
        CoreName::Module
        | CoreName::Object
        | CoreName::ValueType
        | CoreName::Enum
        | CoreName::Boolean
        | CoreName::Char
        | CoreName::SByte
        | CoreName::Byte
        | CoreName::Int16
        | CoreName::UInt16
        | CoreName::Int32
        | CoreName::UInt32
        | CoreName::Int64
        | CoreName::UInt64
        | CoreName::IntPtr
        | CoreName::UIntPtr
        | CoreName::Void
        | CoreName::RuntimeTypeHandle
        | CoreName::RuntimeFieldHandle
        | CoreName::RuntimeMethodHandle
        | CoreName::String
        | CoreName::Array
        | CoreName::Console
        | CoreName::Exception
        | CoreName::Type
        | CoreName::MemberInfo
        | CoreName::MethodBase
        | CoreName::MethodInfo
        | CoreName::FieldInfo
        | CoreName::PropertyInfo
        | CoreName::Activator
        | CoreName::RuntimeHelpers
        | CoreName::IDisposable
        | CoreName::Attribute
        | CoreName::SystemException
        | CoreName::ApplicationException
        | CoreName::MemberAccessException
        | CoreName::MissingMemberException
        | CoreName::ArgumentException
        | CoreName::ArgumentNullException
        | CoreName::ArgumentOutOfRangeException
        | CoreName::InvalidOperationException
        | CoreName::NotSupportedException
        | CoreName::NotImplementedException
        | CoreName::NullReferenceException
        | CoreName::InvalidCastException
        | CoreName::IndexOutOfRangeException
        | CoreName::ArrayTypeMismatchException
        | CoreName::ArithmeticException
        | CoreName::DivideByZeroException
        | CoreName::OverflowException
        | CoreName::FormatException
        | CoreName::TypeInitializationException
        | CoreName::TypeLoadException
        | CoreName::MissingMethodException
        | CoreName::AmbiguousMatchException
        | CoreName::TargetInvocationException
        | CoreName::TargetParameterCountException
        | CoreName::TargetException
        | CoreName::Nameless
        | CoreName::System
        | CoreName::SystemReflection
        | CoreName::SystemRuntimeCompilerServices
        | CoreName::Constructor
        | CoreName::Finalize
        | CoreName::GetType
        | CoreName::ReferenceEquals
        | CoreName::CompareTo
        | CoreName::Parse
        | CoreName::WriteLine
        | CoreName::Write
        | CoreName::ReadLine
        | CoreName::Read
        | CoreName::GetMessage
        | CoreName::GetInnerException
        | CoreName::GetTypeFromHandle
        | CoreName::GetNamespace
        | CoreName::GetFullName
        | CoreName::IsAssignableFrom
        | CoreName::IsInstanceOfType
        | CoreName::GetIsValueType
        | CoreName::GetIsInterface
        | CoreName::GetIsArray
        | CoreName::GetMethod
        | CoreName::GetMethods
        | CoreName::GetField
        | CoreName::GetFields
        | CoreName::GetProperty
        | CoreName::GetProperties
        | CoreName::GetName
        | CoreName::GetDeclaringType
        | CoreName::Invoke
        | CoreName::GetIsStatic
        | CoreName::GetReturnType
        | CoreName::GetValue
        | CoreName::SetValue
        | CoreName::GetFieldType
        | CoreName::GetPropertyType
        | CoreName::CreateInstance
        | CoreName::InitializeArray
        | CoreName::Dispose
        | CoreName::Empty => None,
    }
}

/// Members of Console.
fn console_call(name: CoreName, params: CoreParams) -> Option<CoreCall>
    ensures { result ≡ console_call name params }
{
    match name {
        CoreName::WriteLine => prints_by(true, params),
        CoreName::Write => prints_by(false, params),
        CoreName::ReadLine => Some(CoreCall::ReadLine),
        CoreName::Read => Some(CoreCall::ReadUnit),
        CoreName::Module
        | CoreName::Object
        | CoreName::ValueType
        | CoreName::Enum
        | CoreName::Boolean
        | CoreName::Char
        | CoreName::SByte
        | CoreName::Byte
        | CoreName::Int16
        | CoreName::UInt16
        | CoreName::Int32
        | CoreName::UInt32
        | CoreName::Int64
        | CoreName::UInt64
        | CoreName::IntPtr
        | CoreName::UIntPtr
        | CoreName::Void
        | CoreName::RuntimeTypeHandle
        | CoreName::RuntimeFieldHandle
        | CoreName::RuntimeMethodHandle
        | CoreName::String
        | CoreName::Array
        | CoreName::Console
        | CoreName::Exception
        | CoreName::Type
        | CoreName::MemberInfo
        | CoreName::MethodBase
        | CoreName::MethodInfo
        | CoreName::FieldInfo
        | CoreName::PropertyInfo
        | CoreName::Activator
        | CoreName::RuntimeHelpers
        | CoreName::IDisposable
        | CoreName::Attribute
        | CoreName::SystemException
        | CoreName::ApplicationException
        | CoreName::MemberAccessException
        | CoreName::MissingMemberException
        | CoreName::ArgumentException
        | CoreName::ArgumentNullException
        | CoreName::ArgumentOutOfRangeException
        | CoreName::InvalidOperationException
        | CoreName::NotSupportedException
        | CoreName::NotImplementedException
        | CoreName::NullReferenceException
        | CoreName::InvalidCastException
        | CoreName::IndexOutOfRangeException
        | CoreName::ArrayTypeMismatchException
        | CoreName::ArithmeticException
        | CoreName::DivideByZeroException
        | CoreName::OverflowException
        | CoreName::FormatException
        | CoreName::TypeInitializationException
        | CoreName::TypeLoadException
        | CoreName::MissingMethodException
        | CoreName::AmbiguousMatchException
        | CoreName::TargetInvocationException
        | CoreName::TargetParameterCountException
        | CoreName::TargetException
        | CoreName::Nameless
        | CoreName::System
        | CoreName::SystemReflection
        | CoreName::SystemRuntimeCompilerServices
        | CoreName::Constructor
        | CoreName::ToString
        | CoreName::Equals
        | CoreName::GetHashCode
        | CoreName::Finalize
        | CoreName::GetType
        | CoreName::ReferenceEquals
        | CoreName::CompareTo
        | CoreName::Parse
        | CoreName::GetLength
        | CoreName::GetChars
        | CoreName::Concat
        | CoreName::OpEquality
        | CoreName::OpInequality
        | CoreName::Substring
        | CoreName::IndexOf
        | CoreName::IsNullOrEmpty
        | CoreName::CompareOrdinal
        | CoreName::GetMessage
        | CoreName::GetInnerException
        | CoreName::GetTypeFromHandle
        | CoreName::GetNamespace
        | CoreName::GetFullName
        | CoreName::IsAssignableFrom
        | CoreName::IsInstanceOfType
        | CoreName::GetIsValueType
        | CoreName::GetIsInterface
        | CoreName::GetIsArray
        | CoreName::GetMethod
        | CoreName::GetMethods
        | CoreName::GetField
        | CoreName::GetFields
        | CoreName::GetProperty
        | CoreName::GetProperties
        | CoreName::GetName
        | CoreName::GetDeclaringType
        | CoreName::Invoke
        | CoreName::GetIsStatic
        | CoreName::GetReturnType
        | CoreName::GetValue
        | CoreName::SetValue
        | CoreName::GetFieldType
        | CoreName::GetPropertyType
        | CoreName::CreateInstance
        | CoreName::InitializeArray
        | CoreName::Dispose
        | CoreName::Empty => None,
    }
}

/// A constructor with one text: the message, or of two types the name of a parameter.
fn text_call(owner: CoreName) -> CoreCall
    ensures { result ≡ text_call owner }
{
    match owner {
        CoreName::ArgumentNullException => {
            CoreCall::ExceptionParameter(CoreName::ArgumentNullException)
        }
        CoreName::ArgumentOutOfRangeException => {
            CoreCall::ExceptionParameter(CoreName::ArgumentOutOfRangeException)
        }
        CoreName::Module
        | CoreName::Object
        | CoreName::ValueType
        | CoreName::Enum
        | CoreName::Boolean
        | CoreName::Char
        | CoreName::SByte
        | CoreName::Byte
        | CoreName::Int16
        | CoreName::UInt16
        | CoreName::Int32
        | CoreName::UInt32
        | CoreName::Int64
        | CoreName::UInt64
        | CoreName::IntPtr
        | CoreName::UIntPtr
        | CoreName::Void
        | CoreName::RuntimeTypeHandle
        | CoreName::RuntimeFieldHandle
        | CoreName::RuntimeMethodHandle
        | CoreName::String
        | CoreName::Array
        | CoreName::Console
        | CoreName::Exception
        | CoreName::Type
        | CoreName::MemberInfo
        | CoreName::MethodBase
        | CoreName::MethodInfo
        | CoreName::FieldInfo
        | CoreName::PropertyInfo
        | CoreName::Activator
        | CoreName::RuntimeHelpers
        | CoreName::IDisposable
        | CoreName::Attribute
        | CoreName::SystemException
        | CoreName::ApplicationException
        | CoreName::MemberAccessException
        | CoreName::MissingMemberException
        | CoreName::ArgumentException
        | CoreName::InvalidOperationException
        | CoreName::NotSupportedException
        | CoreName::NotImplementedException
        | CoreName::NullReferenceException
        | CoreName::InvalidCastException
        | CoreName::IndexOutOfRangeException
        | CoreName::ArrayTypeMismatchException
        | CoreName::ArithmeticException
        | CoreName::DivideByZeroException
        | CoreName::OverflowException
        | CoreName::FormatException
        | CoreName::TypeInitializationException
        | CoreName::TypeLoadException
        | CoreName::MissingMethodException
        | CoreName::AmbiguousMatchException
        | CoreName::TargetInvocationException
        | CoreName::TargetParameterCountException
        | CoreName::TargetException
        | CoreName::Nameless
        | CoreName::System
        | CoreName::SystemReflection
        | CoreName::SystemRuntimeCompilerServices
        | CoreName::Constructor
        | CoreName::ToString
        | CoreName::Equals
        | CoreName::GetHashCode
        | CoreName::Finalize
        | CoreName::GetType
        | CoreName::ReferenceEquals
        | CoreName::CompareTo
        | CoreName::Parse
        | CoreName::GetLength
        | CoreName::GetChars
        | CoreName::Concat
        | CoreName::OpEquality
        | CoreName::OpInequality
        | CoreName::Substring
        | CoreName::IndexOf
        | CoreName::IsNullOrEmpty
        | CoreName::CompareOrdinal
        | CoreName::WriteLine
        | CoreName::Write
        | CoreName::ReadLine
        | CoreName::Read
        | CoreName::GetMessage
        | CoreName::GetInnerException
        | CoreName::GetTypeFromHandle
        | CoreName::GetNamespace
        | CoreName::GetFullName
        | CoreName::IsAssignableFrom
        | CoreName::IsInstanceOfType
        | CoreName::GetIsValueType
        | CoreName::GetIsInterface
        | CoreName::GetIsArray
        | CoreName::GetMethod
        | CoreName::GetMethods
        | CoreName::GetField
        | CoreName::GetFields
        | CoreName::GetProperty
        | CoreName::GetProperties
        | CoreName::GetName
        | CoreName::GetDeclaringType
        | CoreName::Invoke
        | CoreName::GetIsStatic
        | CoreName::GetReturnType
        | CoreName::GetValue
        | CoreName::SetValue
        | CoreName::GetFieldType
        | CoreName::GetPropertyType
        | CoreName::CreateInstance
        | CoreName::InitializeArray
        | CoreName::Dispose
        | CoreName::Empty => CoreCall::ExceptionText,
    }
}

/// Members of exceptions.
fn exception_call(owner: CoreName, name: CoreName, params: CoreParams) -> Option<CoreCall>
    ensures { result ≡ exception_call owner name params }
{
    match name {
        CoreName::Constructor => match params {
            CoreParams::Zero => Some(CoreCall::ExceptionPlain),
            CoreParams::One(_) => Some(text_call(owner)),
            CoreParams::Two(_, _) => Some(CoreCall::ExceptionInner),
            CoreParams::Three(_, _, _) | CoreParams::Four(_, _, _, _) => None,
        },
        CoreName::GetMessage => Some(CoreCall::GetMessage),
        CoreName::GetInnerException => Some(CoreCall::GetInner),
        CoreName::ToString => Some(CoreCall::Halts),
        CoreName::Module
        | CoreName::Object
        | CoreName::ValueType
        | CoreName::Enum
        | CoreName::Boolean
        | CoreName::Char
        | CoreName::SByte
        | CoreName::Byte
        | CoreName::Int16
        | CoreName::UInt16
        | CoreName::Int32
        | CoreName::UInt32
        | CoreName::Int64
        | CoreName::UInt64
        | CoreName::IntPtr
        | CoreName::UIntPtr
        | CoreName::Void
        | CoreName::RuntimeTypeHandle
        | CoreName::RuntimeFieldHandle
        | CoreName::RuntimeMethodHandle
        | CoreName::String
        | CoreName::Array
        | CoreName::Console
        | CoreName::Exception
        | CoreName::Type
        | CoreName::MemberInfo
        | CoreName::MethodBase
        | CoreName::MethodInfo
        | CoreName::FieldInfo
        | CoreName::PropertyInfo
        | CoreName::Activator
        | CoreName::RuntimeHelpers
        | CoreName::IDisposable
        | CoreName::Attribute
        | CoreName::SystemException
        | CoreName::ApplicationException
        | CoreName::MemberAccessException
        | CoreName::MissingMemberException
        | CoreName::ArgumentException
        | CoreName::ArgumentNullException
        | CoreName::ArgumentOutOfRangeException
        | CoreName::InvalidOperationException
        | CoreName::NotSupportedException
        | CoreName::NotImplementedException
        | CoreName::NullReferenceException
        | CoreName::InvalidCastException
        | CoreName::IndexOutOfRangeException
        | CoreName::ArrayTypeMismatchException
        | CoreName::ArithmeticException
        | CoreName::DivideByZeroException
        | CoreName::OverflowException
        | CoreName::FormatException
        | CoreName::TypeInitializationException
        | CoreName::TypeLoadException
        | CoreName::MissingMethodException
        | CoreName::AmbiguousMatchException
        | CoreName::TargetInvocationException
        | CoreName::TargetParameterCountException
        | CoreName::TargetException
        | CoreName::Nameless
        | CoreName::System
        | CoreName::SystemReflection
        | CoreName::SystemRuntimeCompilerServices
        | CoreName::Equals
        | CoreName::GetHashCode
        | CoreName::Finalize
        | CoreName::GetType
        | CoreName::ReferenceEquals
        | CoreName::CompareTo
        | CoreName::Parse
        | CoreName::GetLength
        | CoreName::GetChars
        | CoreName::Concat
        | CoreName::OpEquality
        | CoreName::OpInequality
        | CoreName::Substring
        | CoreName::IndexOf
        | CoreName::IsNullOrEmpty
        | CoreName::CompareOrdinal
        | CoreName::WriteLine
        | CoreName::Write
        | CoreName::ReadLine
        | CoreName::Read
        | CoreName::GetTypeFromHandle
        | CoreName::GetNamespace
        | CoreName::GetFullName
        | CoreName::IsAssignableFrom
        | CoreName::IsInstanceOfType
        | CoreName::GetIsValueType
        | CoreName::GetIsInterface
        | CoreName::GetIsArray
        | CoreName::GetMethod
        | CoreName::GetMethods
        | CoreName::GetField
        | CoreName::GetFields
        | CoreName::GetProperty
        | CoreName::GetProperties
        | CoreName::GetName
        | CoreName::GetDeclaringType
        | CoreName::Invoke
        | CoreName::GetIsStatic
        | CoreName::GetReturnType
        | CoreName::GetValue
        | CoreName::SetValue
        | CoreName::GetFieldType
        | CoreName::GetPropertyType
        | CoreName::CreateInstance
        | CoreName::InitializeArray
        | CoreName::Dispose
        | CoreName::Empty => None,
    }
}

/// Members of Type.
fn type_call(name: CoreName, params: CoreParams) -> Option<CoreCall>
    ensures { result ≡ type_call name params }
{
    match name {
        CoreName::GetTypeFromHandle => Some(CoreCall::TypeFromHandle),
        CoreName::GetType => match params {
            CoreParams::One(_) => Some(CoreCall::TypeFind(false)),
            CoreParams::Zero
            | CoreParams::Two(_, _)
            | CoreParams::Three(_, _, _)
            | CoreParams::Four(_, _, _, _) => Some(CoreCall::TypeFind(true)),
        },
        CoreName::GetNamespace => Some(CoreCall::TypeNamespace),
        CoreName::GetFullName => Some(CoreCall::TypeFullName),
        CoreName::ToString => Some(CoreCall::TypeText),
        CoreName::OpEquality => Some(CoreCall::TypeSame),
        CoreName::OpInequality => Some(CoreCall::TypeOther),
        CoreName::Equals => Some(CoreCall::TypeIs),
        CoreName::IsAssignableFrom => Some(CoreCall::TypeFits),
        CoreName::IsInstanceOfType => Some(CoreCall::TypeHas),
        CoreName::GetIsValueType => Some(CoreCall::TypeIsValue),
        CoreName::GetIsInterface => Some(CoreCall::TypeIsInterface),
        CoreName::GetIsArray => Some(CoreCall::TypeIsArray),
        CoreName::GetMethod => Some(CoreCall::MemberFind(MemberKind::Method)),
        CoreName::GetMethods => Some(CoreCall::MemberList(MemberKind::Method)),
        CoreName::GetField => Some(CoreCall::MemberFind(MemberKind::Field)),
        CoreName::GetFields => Some(CoreCall::MemberList(MemberKind::Field)),
        CoreName::GetProperty => Some(CoreCall::MemberFind(MemberKind::Property)),
        CoreName::GetProperties => Some(CoreCall::MemberList(MemberKind::Property)),
        CoreName::Module
        | CoreName::Object
        | CoreName::ValueType
        | CoreName::Enum
        | CoreName::Boolean
        | CoreName::Char
        | CoreName::SByte
        | CoreName::Byte
        | CoreName::Int16
        | CoreName::UInt16
        | CoreName::Int32
        | CoreName::UInt32
        | CoreName::Int64
        | CoreName::UInt64
        | CoreName::IntPtr
        | CoreName::UIntPtr
        | CoreName::Void
        | CoreName::RuntimeTypeHandle
        | CoreName::RuntimeFieldHandle
        | CoreName::RuntimeMethodHandle
        | CoreName::String
        | CoreName::Array
        | CoreName::Console
        | CoreName::Exception
        | CoreName::Type
        | CoreName::MemberInfo
        | CoreName::MethodBase
        | CoreName::MethodInfo
        | CoreName::FieldInfo
        | CoreName::PropertyInfo
        | CoreName::Activator
        | CoreName::RuntimeHelpers
        | CoreName::IDisposable
        | CoreName::Attribute
        | CoreName::SystemException
        | CoreName::ApplicationException
        | CoreName::MemberAccessException
        | CoreName::MissingMemberException
        | CoreName::ArgumentException
        | CoreName::ArgumentNullException
        | CoreName::ArgumentOutOfRangeException
        | CoreName::InvalidOperationException
        | CoreName::NotSupportedException
        | CoreName::NotImplementedException
        | CoreName::NullReferenceException
        | CoreName::InvalidCastException
        | CoreName::IndexOutOfRangeException
        | CoreName::ArrayTypeMismatchException
        | CoreName::ArithmeticException
        | CoreName::DivideByZeroException
        | CoreName::OverflowException
        | CoreName::FormatException
        | CoreName::TypeInitializationException
        | CoreName::TypeLoadException
        | CoreName::MissingMethodException
        | CoreName::AmbiguousMatchException
        | CoreName::TargetInvocationException
        | CoreName::TargetParameterCountException
        | CoreName::TargetException
        | CoreName::Nameless
        | CoreName::System
        | CoreName::SystemReflection
        | CoreName::SystemRuntimeCompilerServices
        | CoreName::Constructor
        | CoreName::GetHashCode
        | CoreName::Finalize
        | CoreName::ReferenceEquals
        | CoreName::CompareTo
        | CoreName::Parse
        | CoreName::GetLength
        | CoreName::GetChars
        | CoreName::Concat
        | CoreName::Substring
        | CoreName::IndexOf
        | CoreName::IsNullOrEmpty
        | CoreName::CompareOrdinal
        | CoreName::WriteLine
        | CoreName::Write
        | CoreName::ReadLine
        | CoreName::Read
        | CoreName::GetMessage
        | CoreName::GetInnerException
        | CoreName::GetName
        | CoreName::GetDeclaringType
        | CoreName::Invoke
        | CoreName::GetIsStatic
        | CoreName::GetReturnType
        | CoreName::GetValue
        | CoreName::SetValue
        | CoreName::GetFieldType
        | CoreName::GetPropertyType
        | CoreName::CreateInstance
        | CoreName::InitializeArray
        | CoreName::Dispose
        | CoreName::Empty => Some(CoreCall::Halts),
    }
}

/// Members of MethodBase, MethodInfo, FieldInfo and PropertyInfo, with what GetValue and SetValue are there.
fn info_call(gets: CoreCall, sets: CoreCall, name: CoreName) -> Option<CoreCall>
    ensures { result ≡ info_call gets sets name }
{
    match name {
        CoreName::Invoke => Some(CoreCall::Invoke),
        CoreName::GetValue => Some(gets),
        CoreName::SetValue => Some(sets),
        CoreName::GetIsStatic => Some(CoreCall::MethodIsStatic),
        CoreName::GetReturnType => Some(CoreCall::MemberType(MemberKind::Method)),
        CoreName::GetFieldType => Some(CoreCall::MemberType(MemberKind::Field)),
        CoreName::GetPropertyType => Some(CoreCall::MemberType(MemberKind::Property)),
        CoreName::OpEquality => Some(CoreCall::MemberSame),
        CoreName::OpInequality => Some(CoreCall::MemberOther),
        CoreName::Module
        | CoreName::Object
        | CoreName::ValueType
        | CoreName::Enum
        | CoreName::Boolean
        | CoreName::Char
        | CoreName::SByte
        | CoreName::Byte
        | CoreName::Int16
        | CoreName::UInt16
        | CoreName::Int32
        | CoreName::UInt32
        | CoreName::Int64
        | CoreName::UInt64
        | CoreName::IntPtr
        | CoreName::UIntPtr
        | CoreName::Void
        | CoreName::RuntimeTypeHandle
        | CoreName::RuntimeFieldHandle
        | CoreName::RuntimeMethodHandle
        | CoreName::String
        | CoreName::Array
        | CoreName::Console
        | CoreName::Exception
        | CoreName::Type
        | CoreName::MemberInfo
        | CoreName::MethodBase
        | CoreName::MethodInfo
        | CoreName::FieldInfo
        | CoreName::PropertyInfo
        | CoreName::Activator
        | CoreName::RuntimeHelpers
        | CoreName::IDisposable
        | CoreName::Attribute
        | CoreName::SystemException
        | CoreName::ApplicationException
        | CoreName::MemberAccessException
        | CoreName::MissingMemberException
        | CoreName::ArgumentException
        | CoreName::ArgumentNullException
        | CoreName::ArgumentOutOfRangeException
        | CoreName::InvalidOperationException
        | CoreName::NotSupportedException
        | CoreName::NotImplementedException
        | CoreName::NullReferenceException
        | CoreName::InvalidCastException
        | CoreName::IndexOutOfRangeException
        | CoreName::ArrayTypeMismatchException
        | CoreName::ArithmeticException
        | CoreName::DivideByZeroException
        | CoreName::OverflowException
        | CoreName::FormatException
        | CoreName::TypeInitializationException
        | CoreName::TypeLoadException
        | CoreName::MissingMethodException
        | CoreName::AmbiguousMatchException
        | CoreName::TargetInvocationException
        | CoreName::TargetParameterCountException
        | CoreName::TargetException
        | CoreName::Nameless
        | CoreName::System
        | CoreName::SystemReflection
        | CoreName::SystemRuntimeCompilerServices
        | CoreName::Constructor
        | CoreName::ToString
        | CoreName::Equals
        | CoreName::GetHashCode
        | CoreName::Finalize
        | CoreName::GetType
        | CoreName::ReferenceEquals
        | CoreName::CompareTo
        | CoreName::Parse
        | CoreName::GetLength
        | CoreName::GetChars
        | CoreName::Concat
        | CoreName::Substring
        | CoreName::IndexOf
        | CoreName::IsNullOrEmpty
        | CoreName::CompareOrdinal
        | CoreName::WriteLine
        | CoreName::Write
        | CoreName::ReadLine
        | CoreName::Read
        | CoreName::GetMessage
        | CoreName::GetInnerException
        | CoreName::GetTypeFromHandle
        | CoreName::GetNamespace
        | CoreName::GetFullName
        | CoreName::IsAssignableFrom
        | CoreName::IsInstanceOfType
        | CoreName::GetIsValueType
        | CoreName::GetIsInterface
        | CoreName::GetIsArray
        | CoreName::GetMethod
        | CoreName::GetMethods
        | CoreName::GetField
        | CoreName::GetFields
        | CoreName::GetProperty
        | CoreName::GetProperties
        | CoreName::GetName
        | CoreName::GetDeclaringType
        | CoreName::CreateInstance
        | CoreName::InitializeArray
        | CoreName::Dispose
        | CoreName::Empty => Some(CoreCall::Halts),
    }
}

/// Members of MemberInfo.
fn member_info_call(name: CoreName) -> Option<CoreCall>
    ensures { result ≡ member_info_call name }
{
    match name {
        CoreName::GetName => Some(CoreCall::MemberName),
        CoreName::GetDeclaringType => Some(CoreCall::MemberOwner),
        CoreName::Module
        | CoreName::Object
        | CoreName::ValueType
        | CoreName::Enum
        | CoreName::Boolean
        | CoreName::Char
        | CoreName::SByte
        | CoreName::Byte
        | CoreName::Int16
        | CoreName::UInt16
        | CoreName::Int32
        | CoreName::UInt32
        | CoreName::Int64
        | CoreName::UInt64
        | CoreName::IntPtr
        | CoreName::UIntPtr
        | CoreName::Void
        | CoreName::RuntimeTypeHandle
        | CoreName::RuntimeFieldHandle
        | CoreName::RuntimeMethodHandle
        | CoreName::String
        | CoreName::Array
        | CoreName::Console
        | CoreName::Exception
        | CoreName::Type
        | CoreName::MemberInfo
        | CoreName::MethodBase
        | CoreName::MethodInfo
        | CoreName::FieldInfo
        | CoreName::PropertyInfo
        | CoreName::Activator
        | CoreName::RuntimeHelpers
        | CoreName::IDisposable
        | CoreName::Attribute
        | CoreName::SystemException
        | CoreName::ApplicationException
        | CoreName::MemberAccessException
        | CoreName::MissingMemberException
        | CoreName::ArgumentException
        | CoreName::ArgumentNullException
        | CoreName::ArgumentOutOfRangeException
        | CoreName::InvalidOperationException
        | CoreName::NotSupportedException
        | CoreName::NotImplementedException
        | CoreName::NullReferenceException
        | CoreName::InvalidCastException
        | CoreName::IndexOutOfRangeException
        | CoreName::ArrayTypeMismatchException
        | CoreName::ArithmeticException
        | CoreName::DivideByZeroException
        | CoreName::OverflowException
        | CoreName::FormatException
        | CoreName::TypeInitializationException
        | CoreName::TypeLoadException
        | CoreName::MissingMethodException
        | CoreName::AmbiguousMatchException
        | CoreName::TargetInvocationException
        | CoreName::TargetParameterCountException
        | CoreName::TargetException
        | CoreName::Nameless
        | CoreName::System
        | CoreName::SystemReflection
        | CoreName::SystemRuntimeCompilerServices
        | CoreName::Constructor
        | CoreName::ToString
        | CoreName::Equals
        | CoreName::GetHashCode
        | CoreName::Finalize
        | CoreName::GetType
        | CoreName::ReferenceEquals
        | CoreName::CompareTo
        | CoreName::Parse
        | CoreName::GetLength
        | CoreName::GetChars
        | CoreName::Concat
        | CoreName::OpEquality
        | CoreName::OpInequality
        | CoreName::Substring
        | CoreName::IndexOf
        | CoreName::IsNullOrEmpty
        | CoreName::CompareOrdinal
        | CoreName::WriteLine
        | CoreName::Write
        | CoreName::ReadLine
        | CoreName::Read
        | CoreName::GetMessage
        | CoreName::GetInnerException
        | CoreName::GetTypeFromHandle
        | CoreName::GetNamespace
        | CoreName::GetFullName
        | CoreName::IsAssignableFrom
        | CoreName::IsInstanceOfType
        | CoreName::GetIsValueType
        | CoreName::GetIsInterface
        | CoreName::GetIsArray
        | CoreName::GetMethod
        | CoreName::GetMethods
        | CoreName::GetField
        | CoreName::GetFields
        | CoreName::GetProperty
        | CoreName::GetProperties
        | CoreName::Invoke
        | CoreName::GetIsStatic
        | CoreName::GetReturnType
        | CoreName::GetValue
        | CoreName::SetValue
        | CoreName::GetFieldType
        | CoreName::GetPropertyType
        | CoreName::CreateInstance
        | CoreName::InitializeArray
        | CoreName::Dispose
        | CoreName::Empty => None,
    }
}

/// Members of Activator: CreateInstance(Type), CreateInstance<T>().
fn activator_call(params: CoreParams) -> Option<CoreCall>
    ensures { result ≡ activator_call params }
{
    match params {
        CoreParams::One(_) => Some(CoreCall::Create),
        CoreParams::Zero
        | CoreParams::Two(_, _)
        | CoreParams::Three(_, _, _)
        | CoreParams::Four(_, _, _, _) => Some(CoreCall::CreateOf),
    }
}

/// What a member of a type does.
pub(crate) fn call_by(owner: CoreName, name: CoreName, params: CoreParams) -> Option<CoreCall>
    ensures { result ≡ call_by owner name params }
{
    match owner {
        CoreName::Object => object_call(name, params),
        CoreName::ValueType => Some(CoreCall::Halts),
        CoreName::Enum => Some(CoreCall::Halts),
        CoreName::Boolean => primitive_call(element::BOOLEAN, name, params),
        CoreName::Char => primitive_call(element::CHAR, name, params),
        CoreName::SByte => primitive_call(element::I1, name, params),
        CoreName::Byte => primitive_call(element::U1, name, params),
        CoreName::Int16 => primitive_call(element::I2, name, params),
        CoreName::UInt16 => primitive_call(element::U2, name, params),
        CoreName::Int32 => primitive_call(element::I4, name, params),
        CoreName::UInt32 => primitive_call(element::U4, name, params),
        CoreName::Int64 => primitive_call(element::I8, name, params),
        CoreName::UInt64 => primitive_call(element::U8, name, params),
        CoreName::String => string_call(name, params),
        CoreName::Array => Some(CoreCall::ArrayLength),
        CoreName::Console => console_call(name, params),
        CoreName::Type => type_call(name, params),
        CoreName::MemberInfo => member_info_call(name),
        CoreName::MethodBase => info_call(CoreCall::Halts, CoreCall::Halts, name),
        CoreName::MethodInfo => info_call(CoreCall::Halts, CoreCall::Halts, name),
        CoreName::FieldInfo => info_call(CoreCall::FieldGet, CoreCall::FieldSet, name),
        CoreName::PropertyInfo => info_call(CoreCall::PropertyGet, CoreCall::PropertySet, name),
        CoreName::Activator => activator_call(params),
        CoreName::RuntimeHelpers => Some(CoreCall::FillArray),
        CoreName::Attribute => Some(CoreCall::Idle),
        CoreName::IDisposable => None,
        CoreName::Module
        | CoreName::IntPtr
        | CoreName::UIntPtr
        | CoreName::Void
        | CoreName::RuntimeTypeHandle
        | CoreName::RuntimeFieldHandle
        | CoreName::RuntimeMethodHandle
        | CoreName::Exception
        | CoreName::SystemException
        | CoreName::ApplicationException
        | CoreName::MemberAccessException
        | CoreName::MissingMemberException
        | CoreName::ArgumentException
        | CoreName::ArgumentNullException
        | CoreName::ArgumentOutOfRangeException
        | CoreName::InvalidOperationException
        | CoreName::NotSupportedException
        | CoreName::NotImplementedException
        | CoreName::NullReferenceException
        | CoreName::InvalidCastException
        | CoreName::IndexOutOfRangeException
        | CoreName::ArrayTypeMismatchException
        | CoreName::ArithmeticException
        | CoreName::DivideByZeroException
        | CoreName::OverflowException
        | CoreName::FormatException
        | CoreName::TypeInitializationException
        | CoreName::TypeLoadException
        | CoreName::MissingMethodException
        | CoreName::AmbiguousMatchException
        | CoreName::TargetInvocationException
        | CoreName::TargetParameterCountException
        | CoreName::TargetException
        | CoreName::Nameless
        | CoreName::System
        | CoreName::SystemReflection
        | CoreName::SystemRuntimeCompilerServices
        | CoreName::Constructor
        | CoreName::ToString
        | CoreName::Equals
        | CoreName::GetHashCode
        | CoreName::Finalize
        | CoreName::GetType
        | CoreName::ReferenceEquals
        | CoreName::CompareTo
        | CoreName::Parse
        | CoreName::GetLength
        | CoreName::GetChars
        | CoreName::Concat
        | CoreName::OpEquality
        | CoreName::OpInequality
        | CoreName::Substring
        | CoreName::IndexOf
        | CoreName::IsNullOrEmpty
        | CoreName::CompareOrdinal
        | CoreName::WriteLine
        | CoreName::Write
        | CoreName::ReadLine
        | CoreName::Read
        | CoreName::GetMessage
        | CoreName::GetInnerException
        | CoreName::GetTypeFromHandle
        | CoreName::GetNamespace
        | CoreName::GetFullName
        | CoreName::IsAssignableFrom
        | CoreName::IsInstanceOfType
        | CoreName::GetIsValueType
        | CoreName::GetIsInterface
        | CoreName::GetIsArray
        | CoreName::GetMethod
        | CoreName::GetMethods
        | CoreName::GetField
        | CoreName::GetFields
        | CoreName::GetProperty
        | CoreName::GetProperties
        | CoreName::GetName
        | CoreName::GetDeclaringType
        | CoreName::Invoke
        | CoreName::GetIsStatic
        | CoreName::GetReturnType
        | CoreName::GetValue
        | CoreName::SetValue
        | CoreName::GetFieldType
        | CoreName::GetPropertyType
        | CoreName::CreateInstance
        | CoreName::InitializeArray
        | CoreName::Dispose
        | CoreName::Empty => exception_call(owner, name, params),
    }
}
