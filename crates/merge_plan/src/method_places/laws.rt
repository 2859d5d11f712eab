//! The law of bytes after bodies.

ghost use Rattle.merge_plan.specs.method_places.Laws.{ModuloTells};

/// A law: the addresses of the bytes of fields, which come after the bodies, depend on the size of the bodies modulo 2^32 alone. It
/// does nothing.
pub fn modulo_tells()
    ensures { ModuloTells }
{}
