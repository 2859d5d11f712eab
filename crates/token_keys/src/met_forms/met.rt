use crate::key_codes::keys::{FieldKey, InstanceKey, MethodKey, TypeKey};
use il_base::{Seq, Sig};

/// What a row or an instruction refers to. Signatures are over the types of the world.
#[derive(Drop)]
pub enum Met {
    /// A type by a token.
    Type(TypeKey),
    /// A type in a signature (II.23.2).
    Sig(Sig),
    Method(MethodKey),
    Field(FieldKey),
    /// A method with arguments.
    Instance(InstanceKey),
    /// The locals of a method body (II.23.2.6).
    Locals(Seq<Sig>),
}
