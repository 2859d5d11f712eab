ghost use Rattle.merge_laws.specs.merged_rows_move.Laws.{MovesCore, MovesMembers, MovesMarks, MovesBases, MovesInterfaces, MovesImpls, MovesNames, MovesTypes, MovesSignatures};

/// A law: the core library's types, members and primitives stand after the kept rows. It does nothing.
pub fn core_moves()
    ensures { MovesCore }
{}

/// A law: the methods and the fields of a kept type are the kept ones of those that it had, in their order. It does nothing.
pub fn members_move()
    ensures { MovesMembers }
{}

/// A law: kept rows have the names of methods and the flags that a step looks at. It does nothing.
pub fn marks_move()
    ensures { MovesMarks }
{}

/// A law: the base of a kept type moves with it, where the output's references name what they stand for. It does nothing.
pub fn bases_move()
    ensures { MovesBases }
{}

/// A law: the interfaces of a kept type are those of its rows that are kept, moved, in their order. It does nothing.
pub fn interfaces_move()
    ensures { MovesInterfaces }
{}

/// A law: the MethodImpl rows of a kept type are those whose body is kept, moved, in their order. It does nothing.
pub fn impls_move()
    ensures { MovesImpls }
{}

/// A law: a kept type whose text can be printed has the same text in the output, with the same name, namespace and encloser. It does
/// nothing.
pub fn names_move()
    ensures { MovesNames }
{}

/// A law: a kept type's row has all in the output that it had, moved, where references are read and names stay. It does nothing.
pub fn types_move()
    ensures { MovesTypes }
{}

/// A law: a kept method's signature moves with it, where the output reads what it wrote. It does nothing.
pub fn signatures_move()
    ensures { MovesSignatures }
{}
