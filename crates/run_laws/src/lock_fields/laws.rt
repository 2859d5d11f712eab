ghost use Rattle.run_laws.specs.lock_fields.Laws.{FieldsLock};

/// A law: the forms on fields, and `ldstr`, keep step. It does nothing.
pub fn fields_lock()
    ensures { FieldsLock }
{}
