//! The full names of types, as keys.

ghost use Rattle.std.specs.Prelude.{◌≡◌, ◌+◌, length, slice_get, fold};
ghost use Rattle.std.specs.Cmp.{partial_equiv_from_equiv};
ghost use Rattle.il_base.specs.world_model.Core.{same_name};
ghost use Rattle.rules.specs.link_rules.Types.{same_place};
ghost use Rattle.rules.specs.type_rules.Texts.{full_name_of};
ghost use Rattle.type_names.specs.FullNames.{same_full_name, hashed_name, hashed};
ghost use Rattle.type_names.specs.FullNameLaws.{same_full_name_is_equality, hashed_alike};

use std::hash::{Hash, Hasher};

/// A type of an assembly by its name: its namespace, if it has one, a full stop and its name, and the type that encloses
/// it. Two are equal where the joined names are, wherever the namespace ends. Where an index is made, a nested type has no
/// namespace.
#[derive(Clone, Copy)]
pub(crate) struct FullName<'a> {
    /// The row, from 0, of the type that encloses it; None for a type that isn't nested.
    pub(crate) around: Option<u32>,
    pub(crate) namespace: &'a [u8],
    pub(crate) name: &'a [u8],
}

/// How many bytes a namespace and a name have, with the full stop between.
fn full_len(namespace: &[u8], name: &[u8]) -> usize
    ensures { result ≡ length (full_name_of namespace.now name.now) }
{
    if namespace.is_empty() {
        name.len()
    } else {
        namespace.len() + 1 + name.len()
    }
}

/// The byte at a place, from 0, of a namespace and a name with the full stop between.
fn byte_at(namespace: &[u8], name: &[u8], at: usize) -> Option<u8>
    ensures { result ≡ slice_get (full_name_of namespace.now name.now) at }
{
    if namespace.is_empty() {
        return name.get(at).copied();
    }
    if at < namespace.len() {
        return namespace.get(at).copied();
    }
    if at == namespace.len() {
        return Some(b'.');
    }
    name.get(at - namespace.len() - 1).copied()
}

/// Whether two namespaces and names are the same with a full stop between.
fn same_joined(namespace: &[u8], name: &[u8], with: &[u8], other: &[u8]) -> bool
    ensures { result ≡ same_name (full_name_of namespace.now name.now) (full_name_of with.now other.now) }
{
    let count = full_len(namespace, name);
    if count != full_len(with, other) {
        return false;
    }
    for i in 0..count {
        if byte_at(namespace, name, i) != byte_at(with, other, i) {
            return false;
        }
    }
    true
}

fn same_place(around: Option<u32>, other: Option<u32>) -> bool
    ensures { result ≡ same_place around other }
{
    match around {
        None => match other {
            None => true,
            Some(_) => false,
        },
        Some(row) => match other {
            None => false,
            Some(by) => row == by,
        },
    }
}

/// Hashes a namespace and a name with the full stop between, byte by byte.
fn hash_joined<H: Hasher>(namespace: &[u8], name: &[u8], state: &mut H)
    ensures { state.new ≡ fold H.write state.old (hashed_name (full_name_of namespace.now name.now)) }
{
    if !namespace.is_empty() {
        u8::hash_slice(namespace, state);
        state.write_u8(b'.');
    }
    u8::hash_slice(name, state);
}

impl PartialEq for FullName<'_> {
    ghost eq = { same_full_name };

    ghost laws = { partial_equiv_from_equiv same_full_name_is_equality };

    fn eq(&self, other: &Self) -> bool {
        same_joined(self.namespace, self.name, other.namespace, other.name)
            && same_place(self.around, other.around)
    }
}

impl Eq for FullName<'_> {
    ghost laws = { same_full_name_is_equality };
}

impl Hash for FullName<'_> {
    ghost hash_input = { hashed };

    ghost respects_eq = { hashed_alike };

    fn hash<H: Hasher>(&self, state: &mut H) {
        self.around.hash(state);
        hash_joined(self.namespace, self.name, state);
    }
}
