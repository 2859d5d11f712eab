ghost use Rattle.base_laws.specs.walk_laws.Walks.{InLinked, InRuns, BasesWhole, BasesOnce, ImpliedWhole, SlotsWhole, SlotsFound, SlotsOfSlots, DispatchAnswers, OwnsAnswers, NamesWhole, SpacesWhole};

/// In a linked world a type has its bases within as many steps as there are types, and the definitions of these are
/// distinct.
pub fn bases_are_whole()
    ensures whole { InLinked BasesWhole }
    ensures once { InLinked BasesOnce }
{}

/// In a linked world an interface implies within as many steps as there are types what it implies in any number of them.
pub fn implied_are_whole()
    ensures { InLinked ImpliedWhole }
{}

/// In a linked world whose runs of methods follow one another each virtual method has a slot, and it is found within one step
/// more than there are types. The slot of a slot is itself.
pub fn slots_are_whole()
    ensures whole { InRuns SlotsWhole }
    ensures found { InRuns SlotsFound }
    ensures again { SlotsOfSlots }
{}

/// What a class slot is answered by in a type is a method with that slot in the type or one of its bases, or the body of a
/// MethodImpl row of one of these for it. In a linked world whose runs of methods follow one another such a method is in the
/// run of that type's definition.
pub fn class_dispatch_answers()
    ensures answers { DispatchAnswers }
    ensures owned { InRuns OwnsAnswers }
{}

/// In a linked world the name of a type with those of its enclosers is found within as many steps as its assembly has types,
/// where the rows of NestedClass name types that are there, and so is its namespace.
pub fn names_are_whole()
    ensures names { InLinked NamesWhole }
    ensures spaces { InLinked SpacesWhole }
{}
