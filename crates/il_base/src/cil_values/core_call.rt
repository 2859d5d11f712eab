use crate::core_table::CoreName;

/// What `Console.Write` and `Console.WriteLine` take.
#[derive(Clone, Copy, Debug, PartialEq, Eq)]
pub enum Printed {
    OfString,
    /// An int or a long.
    OfNumber,
    OfBool,
    OfChar,
    OfObject,
}

/// A kind of members that reflection finds.
#[derive(Clone, Copy, Debug, PartialEq, Eq)]
pub enum MemberKind {
    Method,
    Field,
    Property,
}

/// The members of the core library that a program can call, by what they do. Several members of the table can be one here.
#[derive(Clone, Copy, Debug, PartialEq, Eq)]
pub enum CoreCall {
    /// Ends the run as Stopped: GetHashCode; Equals of ValueType and Enum; ToString of Enum and Exception.
    Halts,
    /// Does nothing: the constructors of Object and Attribute, Finalize.
    Idle,
    /// Object.ToString().
    TypeName,
    /// Object.Equals(object).
    IsObject,
    /// The static Object.Equals(object, object).
    AreEqual,
    /// Object.ReferenceEquals(object, object).
    SameReference,
    /// ToString() of Boolean, Char or an integer, by its element type.
    NumberText(u8),
    /// Equals(object) of Boolean, Char or an integer, by its element type.
    NumberIs(u8),
    /// Int32.Equals(int).
    IntEquals,
    /// Int32.CompareTo(int).
    IntCompare,
    /// Int32.Parse(string).
    IntParse,
    /// String.get_Length().
    StringLength,
    /// String.get_Chars(int).
    StringUnit,
    /// String.Concat of 2, 3 or 4.
    StringConcat,
    /// String.op_Equality, String.Equals(string).
    StringSame,
    /// String.op_Inequality.
    StringOther,
    /// String.Equals(object).
    StringIs,
    /// String.ToString().
    StringItself,
    /// String.Substring(int).
    StringFrom,
    /// String.Substring(int, int).
    StringPart,
    /// String.IndexOf(char).
    StringIndex,
    /// String.IsNullOrEmpty(string).
    StringIsEmpty,
    /// String.CompareOrdinal(string, string).
    StringCompare,
    /// Array.get_Length().
    ArrayLength,
    /// Console.Write, or Console.WriteLine where the line ends, and what is printed.
    Prints(bool, Printed),
    /// Console.WriteLine().
    PrintsLineEnd,
    /// Console.ReadLine().
    ReadLine,
    /// Console.Read().
    ReadUnit,
    /// .ctor() of an exception.
    ExceptionPlain,
    /// .ctor(string) of an exception.
    ExceptionText,
    /// .ctor(string, Exception) of an exception.
    ExceptionInner,
    /// .ctor(string) of an exception that takes a parameter's name.
    ExceptionParameter(CoreName),
    /// Exception.get_Message().
    GetMessage,
    /// Exception.get_InnerException().
    GetInner,
    /// RuntimeHelpers.InitializeArray.
    FillArray,
    /// Object.GetType().
    TypeOf,
    /// Type.GetTypeFromHandle(RuntimeTypeHandle).
    TypeFromHandle,
    /// Type.get_Namespace().
    TypeNamespace,
    /// Type.get_FullName().
    TypeFullName,
    /// Type.ToString().
    TypeText,
    /// Type.op_Equality.
    TypeSame,
    /// Type.op_Inequality.
    TypeOther,
    /// Type.Equals(object).
    TypeIs,
    /// Type.IsAssignableFrom(Type).
    TypeFits,
    /// Type.IsInstanceOfType(object).
    TypeHas,
    /// Type.get_IsValueType().
    TypeIsValue,
    /// Type.get_IsInterface().
    TypeIsInterface,
    /// Type.get_IsArray().
    TypeIsArray,
    /// Type.GetType(string), or with true Type.GetType(string, bool).
    TypeFind(bool),
    /// MemberInfo.get_Name().
    MemberName,
    /// MemberInfo.get_DeclaringType().
    MemberOwner,
    /// Type.GetMethod(string), GetField(string) or GetProperty(string).
    MemberFind(MemberKind),
    /// Type.GetMethods(), GetFields() or GetProperties().
    MemberList(MemberKind),
    /// MethodBase.get_IsStatic().
    MethodIsStatic,
    /// MethodInfo.get_ReturnType(), FieldInfo.get_FieldType(), PropertyInfo.get_PropertyType().
    MemberType(MemberKind),
    /// op_Equality of MethodInfo, FieldInfo and PropertyInfo.
    MemberSame,
    /// op_Inequality of MethodInfo, FieldInfo and PropertyInfo.
    MemberOther,
    /// Activator.CreateInstance(Type).
    Create,
    /// Activator.CreateInstance<T>().
    CreateOf,
    /// MethodBase.Invoke(object, object[]).
    Invoke,
    /// FieldInfo.GetValue(object).
    FieldGet,
    /// FieldInfo.SetValue(object, object).
    FieldSet,
    /// PropertyInfo.GetValue(object).
    PropertyGet,
    /// PropertyInfo.SetValue(object, object).
    PropertySet,
}
