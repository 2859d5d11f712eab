//! Messages of exceptions, by their UTF-16 units.

ghost use Rattle.std.specs.Prelude.{◌≡◌, ◌++◌, IfOk, OnOk};
ghost use Rattle.std.specs.Option.{option_copied};
ghost use Rattle.rules.specs.step_rules.Objects.{own_message, parameter_message, default_message, message_cell, message_of};

use crate::cil_objects::texts::units_of;
use crate::cil_objects::types::type_of;
use crate::cil_places::cell_in;
use crate::cil_queries::Answers;
use il_base::cil_values::{Cell, Obj, State};
use il_base::core_table::CoreName;
use il_base::world_model::TypeExpr;
use il_base::{NoMemory, Seq, Units};
use std::alloc::Global;

/// The message of an exception of the core library that was given none, in ASCII.
#[tactic(auto, unfolding(rules::specs::step_rules::Objects::own_message))]
fn own_text(name: CoreName) -> &'static [u8]
    ensures { result.now ≡ own_message name }
{
    match name {
        CoreName::ArgumentException => b"Value does not fall within the expected range.",
        CoreName::ArgumentNullException => b"Value cannot be null.",
        CoreName::ArgumentOutOfRangeException =>
            b"Specified argument was out of the range of valid values.",
        CoreName::InvalidOperationException =>
            b"Operation is not valid due to the current state of the object.",
        CoreName::NotSupportedException => b"Specified method is not supported.",
        CoreName::NotImplementedException => b"The method or operation is not implemented.",
        CoreName::NullReferenceException =>
            b"Object reference not set to an instance of an object.",
        CoreName::InvalidCastException => b"Specified cast is not valid.",
        CoreName::IndexOutOfRangeException => b"Index was outside the bounds of the array.",
        CoreName::ArrayTypeMismatchException =>
            b"Attempted to access an element as a type incompatible with the array.",
        CoreName::ArithmeticException => b"Overflow or underflow in the arithmetic operation.",
        CoreName::DivideByZeroException => b"Attempted to divide by zero.",
        CoreName::OverflowException => b"Arithmetic operation resulted in an overflow.",
        CoreName::FormatException => b"The input string was not in a correct format.",
        CoreName::TypeInitializationException => b"The type initializer threw an exception.",
        CoreName::TypeLoadException => b"Could not load the type.",
        CoreName::MissingMethodException => b"No parameterless constructor defined.",
        CoreName::AmbiguousMatchException => b"Ambiguous match found.",
        CoreName::TargetInvocationException => b"The target threw an exception.",
        CoreName::TargetParameterCountException => b"Parameter count mismatch.",
        CoreName::TargetException => b"Non-static method requires a target.",
        CoreName::Module
        | CoreName::Object
        | CoreName::ValueType
        | CoreName::Enum
        | CoreName::Boolean
        | CoreName::Char
        | CoreName::SByte
        | CoreName::Byte
        | CoreName::Int16
        | CoreName::UInt16
        | CoreName::Int32
        | CoreName::UInt32
        | CoreName::Int64
        | CoreName::UInt64
        | CoreName::IntPtr
        | CoreName::UIntPtr
        | CoreName::Void
        | CoreName::RuntimeTypeHandle
        | CoreName::RuntimeFieldHandle
        | CoreName::RuntimeMethodHandle
        | CoreName::String
        | CoreName::Array
        | CoreName::Console
        | CoreName::Exception
        | CoreName::Type
        | CoreName::MemberInfo
        | CoreName::MethodBase
        | CoreName::MethodInfo
        | CoreName::FieldInfo
        | CoreName::PropertyInfo
        | CoreName::Activator
        | CoreName::RuntimeHelpers
        | CoreName::IDisposable
        | CoreName::Attribute
        | CoreName::SystemException
        | CoreName::ApplicationException
        | CoreName::MemberAccessException
        | CoreName::MissingMemberException
        | CoreName::Nameless
        | CoreName::System
        | CoreName::SystemReflection
        | CoreName::SystemRuntimeCompilerServices
        | CoreName::Constructor
        | CoreName::ToString
        | CoreName::Equals
        | CoreName::GetHashCode
        | CoreName::Finalize
        | CoreName::GetType
        | CoreName::ReferenceEquals
        | CoreName::CompareTo
        | CoreName::Parse
        | CoreName::GetLength
        | CoreName::GetChars
        | CoreName::Concat
        | CoreName::OpEquality
        | CoreName::OpInequality
        | CoreName::Substring
        | CoreName::IndexOf
        | CoreName::IsNullOrEmpty
        | CoreName::CompareOrdinal
        | CoreName::WriteLine
        | CoreName::Write
        | CoreName::ReadLine
        | CoreName::Read
        | CoreName::GetMessage
        | CoreName::GetInnerException
        | CoreName::GetTypeFromHandle
        | CoreName::GetNamespace
        | CoreName::GetFullName
        | CoreName::IsAssignableFrom
        | CoreName::IsInstanceOfType
        | CoreName::GetIsValueType
        | CoreName::GetIsInterface
        | CoreName::GetIsArray
        | CoreName::GetMethod
        | CoreName::GetMethods
        | CoreName::GetField
        | CoreName::GetFields
        | CoreName::GetProperty
        | CoreName::GetProperties
        | CoreName::GetName
        | CoreName::GetDeclaringType
        | CoreName::Invoke
        | CoreName::GetIsStatic
        | CoreName::GetReturnType
        | CoreName::GetValue
        | CoreName::SetValue
        | CoreName::GetFieldType
        | CoreName::GetPropertyType
        | CoreName::CreateInstance
        | CoreName::InitializeArray
        | CoreName::Dispose
        | CoreName::Empty => b"Exception was thrown.",
    }
}

/// Puts the units of an ASCII text at the end.
fn push_text(units: &mut Units, text: &[u8]) -> Result<(), NoMemory>
    ensures { OnOk result (units.new ≡ units.old ++ text.now) }
{
    for byte in text {
        units.push(*byte as u16)?;
    }
    Ok(())
}

/// The message of an exception of the core library that was given none.
pub fn own_message(alloc: Global, name: CoreName) -> Result<Units, NoMemory>
    ensures { IfOk result (λ units. units ≡ own_message name) }
{
    let mut units = Seq::new(alloc);
    push_text(&mut units, own_text(name))?;
    Ok(units)
}

/// The message of an exception of the core library that was given a parameter's name.
#[tactic(auto, unfolding(rules::specs::step_rules::Objects::parameter_message))]
pub fn parameter_message(
    alloc: Global,
    name: CoreName,
    parameter: &[u16],
) -> Result<Units, NoMemory>
    ensures { IfOk result (λ units. units ≡ parameter_message name parameter.now) }
{
    let mut units = own_message(alloc, name)?;
    push_text(&mut units, b" (Parameter '")?;
    units.extend_from_slice(parameter)?;
    push_text(&mut units, b"')")?;
    Ok(units)
}

/// The message of an exception of a closed type that has no stored message: that of the nearest core type.
#[tactic(auto, unfolding(rules::specs::step_rules::Objects::default_message))]
pub fn default_message<Q: Answers>(alloc: Global, q: &Q, ty: &TypeExpr) -> Result<Units, NoMemory>
    ensures { IfOk result (λ units. units ≡ default_message (Q.queries q.now) ty.now) }
{
    let name = q.kin(alloc, ty)?;
    own_message(alloc, name.unwrap_or(CoreName::Exception))
}

/// The units of the message that an exception stores.
fn message_cell<'a, Q: Answers>(
    alloc: Global,
    q: &Q,
    st: &'a State,
    o: &Obj,
) -> Result<Option<&'a Units>, NoMemory>
    ensures { IfOk result (λ units. option_copied units ≡ message_cell (Q.queries q.now) st.now o.now) }
{
    match cell_in(alloc, q, Cell::Message, o)? {
        None => Ok(None),
        Some(v) => Ok(units_of(st, v)),
    }
}

/// The message of an exception: the stored one, or else the default.
#[tactic(auto, unfolding(rules::specs::step_rules::Objects::message_of))]
pub fn message_of<Q: Answers>(alloc: Global, q: &Q, st: &State, o: &Obj) -> Result<Units, NoMemory>
    ensures { IfOk result (λ units. units ≡ message_of (Q.queries q.now) st.now o.now) }
{
    match message_cell(alloc, q, st, o)? {
        Some(units) => Seq::from_slice(alloc, units.as_slice()),
        None => {
            let ty = type_of(alloc, q, o)?;
            default_message(alloc, q, &ty)
        }
    }
}
