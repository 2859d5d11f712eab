/// Drops a value.
pub fn discard<T: Drop>(_v: T) {}
