ghost use Rattle.base_laws.specs.walk_laws.Walks.{AreMethodRuns, NestsTypes, SlotsWhole, SlotsFound, OwnsAnswers};
ghost use Rattle.base_laws.specs.world_laws.Tokens.{InWorlds, TellsTypes, TellsMethods, TellsFields, NamesTypes, NamesMethods, NamesFields};
ghost use Rattle.base_laws.specs.world_laws.Homes.{TellsHomes, TellsItems, ListsItems};
ghost use Rattle.base_laws.specs.world_laws.Inputs.{EachAssembly, InRecords, NamesWithin};

/// The link of a type, method or field token tells what linking says of the token's row (II.22). Where no such row is there,
/// no link is.
pub fn rows_told()
    ensures types { InWorlds TellsTypes }
    ensures methods { InWorlds TellsMethods }
    ensures fields { InWorlds TellsFields }
{}

/// What a token names by the links of a world is what the rules of marking say that it names.
pub fn tokens_named()
    ensures types { InWorlds NamesTypes }
    ensures methods { InWorlds NamesMethods }
    ensures fields { InWorlds NamesFields }
{}

/// The homes of a world list each item at its place, with its assembly and its row, and list nothing else.
pub fn homes_told()
    ensures kinds { InWorlds TellsHomes }
    ensures items { InWorlds TellsItems }
    ensures listed { InWorlds ListsItems }
{}

/// In the world of inputs that are records (II.22) the runs of methods of each assembly follow one another, and the rows of
/// NestedClass name types that are there.
pub fn records_keep()
    ensures runs { EachAssembly AreMethodRuns }
    ensures nesting { EachAssembly NestsTypes }
{}

/// In the world of inputs that are records and link, each virtual method has a slot, found within one step more than there
/// are types. What answers for a class slot is in the run of its type. The name of a type with those of its enclosers is
/// found within as many steps as its assembly has types.
pub fn records_are_whole()
    ensures slots { InRecords SlotsWhole }
    ensures found { InRecords SlotsFound }
    ensures owned { InRecords OwnsAnswers }
    ensures names { InRecords NamesWithin }
{}
