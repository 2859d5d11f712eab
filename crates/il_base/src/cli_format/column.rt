/// What a column of a table holds (II.22). A table is named by its number.
#[derive(Clone, Copy, Debug, PartialEq, Eq)]
pub enum Column {
    /// A number of one byte.
    U8,
    /// A number of two bytes.
    U16,
    /// A number of four bytes.
    U32,
    /// The place of a text in `#Strings` (II.24.2.3).
    Text,
    /// The place of a blob in `#Blob` (II.24.2.4).
    Blob,
    /// The number, from 1, of a GUID in `#GUID`, or 0 (II.24.2.5).
    Guid,
    /// A row of that table.
    Index(u8),
    /// A row of that table, or 0.
    IndexOrNone(u8),
    /// The first of a run of rows of that table, which ends before the run of the row below.
    Run(u8),
    /// A row of one of several tables (II.24.2.6).
    Coded(CodedIndex),
    /// A row of one of several tables, or 0.
    CodedOrNone(CodedIndex),
}

/// A kind of coded index, which stands for the tables whose rows it can name (II.24.2.6).
#[derive(Clone, Copy, Debug, PartialEq, Eq)]
pub enum CodedIndex {
    TypeDefOrRef,
    HasConstant,
    HasCustomAttribute,
    HasFieldMarshal,
    HasDeclSecurity,
    MemberRefParent,
    HasSemantics,
    MethodDefOrRef,
    MemberForwarded,
    Implementation,
    CustomAttributeType,
    ResolutionScope,
    TypeOrMethodDef,
}
