use il_base::Text;

/// In which type a dependency seeks its members.
#[derive(Drop)]
pub enum Sought {
    /// The type that has the method or field with the attribute.
    OwnType,
    /// The type that an argument of type `System.Type` names (II.23.3), in UTF-8.
    TypeArgument(Text),
    /// The type of a name in the assembly of a simple name, both in UTF-8; None stands for null.
    TypeText(Option<Text>, Option<Text>),
}

/// What a method or a field depends on: members of a type.
#[derive(Drop)]
pub struct Dependency {
    pub sought: Sought,
    /// The members' name in UTF-8; None where `kinds` says which members.
    pub member: Option<Text>,
    /// The kinds of members, where no name is given: `rules::mark_rules::member_kinds`.
    pub kinds: u32,
}
