ghost use Rattle.merge_laws.specs.merged_tokens.Laws.{BodiesNamed, ConstraintsNamed, ConstructorsNamed, DeclarationsNamed, EventsNamed, InterfacesNamed, MethodsNamed, NamesFollow, TypeTokensStand};

use crate::merged_owners::laws::owners_stay;

/// A law: where exactly what is marked is kept, and no marked item has a flaw, a type that a part of a kept item names by a token has
/// a token in what is left. It does nothing.
pub fn type_tokens_stand()
    ensures { TypeTokensStand }
{}

/// A law: so each kept row of InterfaceImpl names its interface in what is left of records. It does nothing.
pub fn interfaces_named()
    ensures { InterfacesNamed }
{
    type_tokens_stand();
}

/// A law: so does each kept row of Event its type. It does nothing.
pub fn events_named()
    ensures { EventsNamed }
{
    type_tokens_stand();
    owners_stay();
}

/// A law: so does each kept row of GenericParamConstraint its constraint. It does nothing.
pub fn constraints_named()
    ensures { ConstraintsNamed }
{
    type_tokens_stand();
    owners_stay();
}

/// A law: each kept row of MethodImpl names its body in what is left of records. It does nothing.
pub fn bodies_named()
    ensures { BodiesNamed }
{}

/// A law: so does it its declaration, where exactly what is marked is kept, and no marked item has a flaw. It does nothing.
pub fn declarations_named()
    ensures { DeclarationsNamed }
{}

/// A law: so does each row of MethodSpec its method. It does nothing.
pub fn methods_named()
    ensures { MethodsNamed }
{}

/// A law: so does each row of CustomAttribute its constructor. It does nothing.
pub fn constructors_named()
    ensures { ConstructorsNamed }
{}

/// A law: so all columns that have to name a row name one, if the parents of MemberRef rows do. It does nothing.
pub fn names_follow()
    ensures { NamesFollow }
{
    interfaces_named();
    events_named();
    constraints_named();
    bodies_named();
    declarations_named();
    methods_named();
    constructors_named();
}
