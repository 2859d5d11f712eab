ghost use Rattle.run_laws.specs.marked_laws.Laws.{MarkedRows, MarkedInterfaces, MarkedImpls};

/// A law: what rows of marked types, methods and fields name is marked. It does nothing.
pub fn marked_rows()
    ensures { MarkedRows }
{}

/// A law: an interface row of a marked type is marked where its interface is, or implies one that is (II.22.23). It does nothing.
pub fn marked_interfaces()
    ensures { MarkedInterfaces }
{}

/// A law: the declaration of a MethodImpl row whose body is marked is marked (II.22.27). It does nothing.
pub fn marked_impls()
    ensures { MarkedImpls }
{}
