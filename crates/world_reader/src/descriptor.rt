//! The embedded descriptor: a resource of that name in the file itself (II.22.24).

ghost use Rattle.std.specs.Prelude.{◌≡◌, IfOk, find};
ghost use Rattle.std.specs.Option.{option_map, option_copied};
ghost use Rattle.rules.specs.record_format.Texts as texts;

use il_base::world_model::ManifestResourceRow;
use il_base::{NoMemory, Seq, Text, u32_at};
use std::alloc::Global;

/// Whether a resource is the descriptor, and lies in the file.
fn is_descriptor(row: &ManifestResourceRow) -> bool
    ensures { result ≡ texts.is_descriptor row.now }
{
    row.name.as_slice() == b"ILLink.Descriptors.xml".as_slice() && row.implementation == 0
}

/// The bytes of the resource at an offset, after their number in four bytes.
#[tactic(auto, unfolding(rules::specs::record_format::Texts::resource_at, il_base::specs::Bytes::bytes_at))]
fn resource_at(resources: &[u8], at: u32) -> Option<&[u8]>
    ensures { option_map (λ b. b.now) result ≡ texts.resource_at resources.now at }
{
    let start = at as usize + 4;
    match u32_at(resources, at as usize) {
        None => None,
        Some(len) => {
            if resources.len() < start || resources.len() - start < len as usize {
                return None;
            }
            Some(&resources[start..][..len as usize])
        }
    }
}

/// The first row of the descriptor.
fn first_descriptor(rows: &[ManifestResourceRow]) -> Option<&ManifestResourceRow>
    ensures { option_copied result ≡ find texts.is_descriptor rows.now }
{
    rows.iter().find(|row| is_descriptor(row))
}

/// The bytes of the descriptor among the resources.
fn find_descriptor<'a>(
    rows: &[ManifestResourceRow],
    resources: Option<&'a [u8]>,
) -> Option<&'a [u8]>
    ensures { option_map (λ b. b.now) result ≡ texts.descriptor_in rows.now (option_map (λ b. b.now) resources.entry) }
{
    match resources {
        None => None,
        Some(resources) => match first_descriptor(rows) {
            None => None,
            Some(row) => resource_at(resources, row.offset),
        },
    }
}

/// A copy of the descriptor, by the rows of ManifestResource and the resources of the image.
pub fn descriptor_of(
    alloc: Global,
    rows: &[ManifestResourceRow],
    resources: Option<&[u8]>,
) -> Result<Option<Text>, NoMemory>
    ensures { IfOk result (λ d. d ≡ texts.descriptor_in rows.now (option_map (λ b. b.now) resources.entry)) }
{
    match find_descriptor(rows, resources) {
        None => Ok(None),
        Some(bytes) => {
            let bytes = Seq::from_slice(alloc, bytes)?;
            Ok(Some(bytes))
        }
    }
}
