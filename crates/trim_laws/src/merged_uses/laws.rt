ghost use Rattle.trim_laws.specs.merged_uses.Laws.{CalleesRead, FieldTokensRead, ImplsRead};

/// A law: a token of a method that is written names the moved method. It does nothing.
pub fn callees_read()
    ensures { CalleesRead }
{}

/// A law: a token of a field that is written names the moved field. It does nothing.
pub fn field_tokens_read()
    ensures { FieldTokensRead }
{}

/// A law: a MethodImpl row of a kept class names in the output what it named, moved, where its body is kept. It does nothing.
pub fn impls_read()
    ensures { ImplsRead }
{}
