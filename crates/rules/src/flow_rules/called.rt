/// What the evaluation stack sees of a method's signature (II.23.2.1).
#[derive(Clone, Copy, Debug, PartialEq, Eq)]
pub struct Called {
    /// Whether `this` is passed.
    pub this: bool,
    /// How many parameters there are, without `this`.
    pub params: usize,
    /// Whether it returns a value: its return is not `void`, modifiers aside.
    pub returns: bool,
}
