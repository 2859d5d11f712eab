//! The members of the core library by their rows.

ghost use Rattle.std.specs.Prelude.{◌≡◌, slice_get};
ghost use Rattle.il_base.specs.core_table.Kinds.{kind_of, core_row, core_kind, owned, member_in, member_of, is_get_type, asks_of_type, reflects, looks, is_reflective, looks_at_types};

use crate::core_table::names::CoreName;
use crate::core_table::shape::{CoreMethod, CoreType};
use crate::core_table::types::{METHOD_COUNT, TYPES};
use crate::world_model::{AsmRec, World, index_in};
use crate::{MethodId, table};

/// A method of the core library, by its MethodDef row in the core record, from 1.
#[derive(Clone, Copy, Debug, PartialEq, Eq)]
pub struct CoreKind(pub u16);

/// A method of the core table and the name of its type.
#[derive(Clone, Copy, Debug, PartialEq, Eq)]
pub struct OwnedMethod {
    pub owner: CoreName,
    pub method: CoreMethod,
}

/// The method that a token of the core record names. None for a token of another table or of no row.
#[tactic(auto, unfolding(crate::specs::core_table::Kinds::kind_of))]
pub fn kind_of(token: u32) -> Option<CoreKind>
    ensures { result ≡ kind_of token }
{
    match index_in(table::METHOD_DEF, token) {
        None => None,
        Some(at) => {
            if at < METHOD_COUNT {
                Some(CoreKind(at as u16 + 1))
            } else {
                None
            }
        }
    }
}

/// The place of a method among those of the last assembly.
fn core_row(recs: &[AsmRec], method: usize) -> Option<usize>
    ensures { result ≡ core_row recs.now method }
{
    let mut left = method;
    for (i, rec) in recs.iter().enumerate() {
        if i + 1 == recs.len() {
            return Some(left);
        }
        let count = rec.method_def.len();
        if left < count {
            return None;
        }
        left -= count;
    }
    None
}

/// The member of the core library that a method of a world is; None for a method of an input.
#[tactic(auto, unfolding(crate::specs::core_table::Kinds::core_kind))]
pub fn core_kind(w: &World, m: MethodId) -> Option<CoreKind>
    ensures { result ≡ core_kind w.now m }
{
    match core_row(w.recs.as_slice(), m.0 as usize) {
        None => None,
        Some(at) => {
            if at < METHOD_COUNT as usize {
                Some(CoreKind(at as u16 + 1))
            } else {
                None
            }
        }
    }
}

fn owned(owner: CoreName, methods: &[CoreMethod], at: usize) -> Option<OwnedMethod>
    ensures { result ≡ owned owner (slice_get methods.now at) }
{
    match methods.get(at) {
        None => None,
        Some(method) => Some(OwnedMethod {
            owner,
            method: *method,
        }),
    }
}

/// The method at a place, from 0, among those of these types.
#[tactic(auto, unfolding(crate::specs::core_table::Kinds::member_in))]
fn member_in(types: &[CoreType], at: usize) -> Option<OwnedMethod>
    ensures { result ≡ member_in types.now at }
{
    let mut left = at;
    for ty in types {
        let methods = ty.members.methods();
        if left < methods.len() {
            return owned(ty.name, methods, left);
        }
        left -= methods.len();
    }
    None
}

impl CoreKind {
    /// The method as the core table has it. None for a row that the core record doesn't have.
    #[tactic(auto, unfolding(crate::specs::core_table::Kinds::member_of))]
    pub fn member(self) -> Option<OwnedMethod>
        ensures { result ≡ member_of self }
    {
        let CoreKind(row) = self;
        if row == 0 {
            None
        } else {
            member_in(&TYPES, row as usize - 1)
        }
    }
}

fn is_get_type(name: CoreName) -> bool
    ensures { result ≡ is_get_type name }
{
    name == CoreName::GetType
}

/// Whether a member of Type asks something of a type.
fn asks_of_type(name: CoreName) -> bool
    ensures { result ≡ asks_of_type name }
{
    matches!(
        name,
        CoreName::GetTypeFromHandle
            | CoreName::GetNamespace
            | CoreName::GetFullName
            | CoreName::ToString
            | CoreName::OpEquality
            | CoreName::OpInequality
            | CoreName::Equals
            | CoreName::IsAssignableFrom
            | CoreName::IsInstanceOfType
            | CoreName::GetIsValueType
            | CoreName::GetIsInterface
            | CoreName::GetIsArray
    )
}

fn reflects(owner: CoreName, name: CoreName) -> bool
    ensures { result ≡ reflects owner name }
{
    match owner {
        CoreName::Object => is_get_type(name),
        CoreName::Type
        | CoreName::MemberInfo
        | CoreName::MethodBase
        | CoreName::MethodInfo
        | CoreName::FieldInfo
        | CoreName::PropertyInfo
        | CoreName::Activator => true,
        _ => false,
    }
}

fn looks(owner: CoreName, name: CoreName) -> bool
    ensures { result ≡ looks owner name }
{
    match owner {
        CoreName::Object => is_get_type(name),
        CoreName::Type => asks_of_type(name),
        CoreName::MemberInfo => true,
        _ => false,
    }
}

impl OwnedMethod {
    /// Whether the method is a member of one of the seven types of reflection, or Object.GetType.
    #[tactic(auto, unfolding(crate::specs::core_table::Kinds::is_reflective))]
    pub fn is_reflective(self) -> bool
        ensures { result ≡ is_reflective self }
    {
        reflects(self.owner, self.method.name)
    }

    /// Whether the method only looks at types: Object.GetType, a member of MemberInfo, or one that asks something of a
    /// Type.
    #[tactic(auto, unfolding(crate::specs::core_table::Kinds::looks_at_types))]
    pub fn looks_at_types(self) -> bool
        ensures { result ≡ looks_at_types self }
    {
        looks(self.owner, self.method.name)
    }
}
