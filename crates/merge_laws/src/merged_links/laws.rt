ghost use Rattle.merge_laws.specs.merged_links.Cycles.{CyclesStay};
ghost use Rattle.merge_laws.specs.merged_links.Joined.{LinksStay};
ghost use Rattle.merge_laws.specs.merged_links.Laws.{NamesAndNestingStay};
ghost use Rattle.merge_laws.specs.merged_links.Repeats.{RepeatsStay};

/// A law: where inputs link, the name of what is left of them is not the core library's, and no type of it encloses itself. It
/// does nothing.
pub fn names_and_nesting_stay()
    ensures { NamesAndNestingStay }
{}

/// A law: where each type of a record stands for a kept type of inputs that link, and leads to bases, interfaces and value types in
/// fields as that one does, none of its types is on a cycle. It does nothing.
pub fn cycles_stay()
    ensures { CyclesStay }
{}

/// A law: where two types, fields or methods of a record that are the same lead to two of an input that links, none of the record is
/// there twice. It does nothing.
pub fn repeats_stay()
    ensures { RepeatsStay }
{}

/// A law: what is left of inputs that link links, where its types and members lead back to theirs. It does nothing.
pub fn links_stay()
    ensures { LinksStay }
{}
