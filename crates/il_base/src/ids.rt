/// An assembly of a world: the inputs in the order of the command line from 0, then the core library.
#[derive(Clone, Copy, Debug, PartialEq, Eq)]
pub struct AsmId(pub u32);

/// A type definition of a world: TypeDef rows (II.22.37) of all assemblies in order, counted from 0.
#[derive(Clone, Copy, Debug, PartialEq, Eq)]
pub struct TypeId(pub u32);

/// A method of a world: MethodDef rows (II.22.26) of all assemblies in order, counted from 0.
#[derive(Clone, Copy, Debug, PartialEq, Eq)]
pub struct MethodId(pub u32);

/// A field of a world: Field rows (II.22.15) of all assemblies in order, counted from 0.
#[derive(Clone, Copy, Debug, PartialEq, Eq)]
pub struct FieldId(pub u32);

/// A property of a world: Property rows (II.22.34) of all assemblies in order, counted from 0.
#[derive(Clone, Copy, Debug, PartialEq, Eq)]
pub struct PropId(pub u32);

/// An event of a world: Event rows (II.22.13) of all assemblies in order, counted from 0.
#[derive(Clone, Copy, Debug, PartialEq, Eq)]
pub struct EventId(pub u32);

/// An interface row of a world: InterfaceImpl rows (II.22.23) of all assemblies in order, counted from 0.
#[derive(Clone, Copy, Debug, PartialEq, Eq)]
pub struct ImplId(pub u32);

/// What can be kept or removed.
#[derive(Clone, Copy, Debug, PartialEq, Eq)]
pub enum Item {
    Asm(AsmId),
    Typ(TypeId),
    Method(MethodId),
    Field(FieldId),
    Prop(PropId),
    Event(EventId),
    /// A row that says that a type implements an interface.
    Impl(ImplId),
}

/// A place in an assembly's code or metadata.
#[derive(Clone, Copy, Debug, PartialEq, Eq)]
pub struct Place {
    /// The assembly, counted from 0 in the order of the command line.
    pub asm: u32,
    /// A metadata token (II.22): the table's number in the high byte, the row from 1 below it.
    pub token: u32,
    /// For a method the IL offset in bytes from the start of its code, else 0.
    pub offset: u32,
}

/// Why a file can't be read.
#[derive(Clone, Copy, Debug, PartialEq, Eq)]
pub struct BadAt {
    /// A file offset in bytes.
    pub offset: u32,
    /// The demand that fails, by its number in `reason`.
    pub why: u8,
}
