//! The roots of descriptors.

ghost use Rattle.std.specs.Prelude.{◌≡◌, ◌++◌, map, Some, OnOk};
ghost use Rattle.descriptor_roots.specs.Roots.{long_descriptor, from_source, embedded, given, ReadsRoots, AddsOne, AddsFrom};

use crate::error::RootsError;
use descriptor_file::{DescriptorError, Root, read_descriptor};
use il_base::world_model::AsmRec;
use il_base::{NoMemory, Seq, Text};
use std::alloc::Global;

/// The most bytes of a named descriptor.
const MOST_BYTES: usize = 1_048_576;

/// The length of the first of these descriptors that is too long.
#[tactic(auto, unfolding(crate::specs::Roots::long_descriptor))]
pub fn within_length(descriptors: &[Text]) -> Option<u64>
    ensures { result ≡ long_descriptor descriptors.now }
{
    match descriptors {
        [] => None,
        [descriptor, rest @ ..] => {
            if descriptor.len() > MOST_BYTES {
                return Some(descriptor.len() as u64);
            }
            within_length(rest)
        }
    }
}

/// Puts the roots of a descriptor at the end, with its number.
fn push_roots(read: Seq<Root>, source: u32, roots: &mut Seq<Root>) -> Result<(), NoMemory>
    ensures { OnOk result (roots.new ≡ roots.old ++ map (from_source source) read) }
{
    for root in read.into_vec() {
        let mut root = root;
        root.source = source;
        roots.push(root)?;
    }
    Ok(())
}

/// Reads a descriptor with this number, and puts its roots at the end.
fn push_descriptor(
    alloc: Global,
    descriptor: &[u8],
    source: u32,
    roots: &mut Seq<Root>,
) -> Result<(), RootsError>
    ensures { AddsOne source (Some descriptor.now) roots.old roots.new result }
{
    // (no file has so many bytes)
    if descriptor.len() > u32::MAX as usize {
        return Err(RootsError::NoMemory);
    }
    match read_descriptor(alloc, descriptor) {
        Err(DescriptorError::Bad { at }) => Err(RootsError::Bad { source, offset: at }),
        Err(DescriptorError::NoMemory) => Err(RootsError::NoMemory),
        Ok(read) => match push_roots(read, source, roots) {
            Ok(()) => Ok(()),
            Err(NoMemory) => Err(RootsError::NoMemory),
        },
    }
}

/// Reads the descriptor of an input, if it has one, and puts its roots at the end.
fn push_own(
    alloc: Global,
    descriptor: &Option<Text>,
    source: u32,
    roots: &mut Seq<Root>,
) -> Result<(), RootsError>
    ensures { AddsOne source descriptor.now roots.old roots.new result }
{
    match descriptor {
        None => Ok(()),
        Some(text) => push_descriptor(alloc, text.as_slice(), source, roots),
    }
}

/// Reads the embedded descriptors of inputs, of which the first has this number, and puts their roots at the end.
#[tactic(auto, unfolding(crate::specs::Roots::fault_from, crate::specs::Roots::roots_from))]
fn push_embedded(
    alloc: Global,
    inputs: &[AsmRec],
    first: u32,
    roots: &mut Seq<Root>,
) -> Result<(), RootsError>
    ensures { AddsFrom first (embedded inputs.now) roots.old roots.new result }
{
    match inputs {
        [] => Ok(()),
        [rec, rest @ ..] => match push_own(alloc, &rec.descriptor, first, roots) {
            Err(fault) => Err(fault),
            Ok(()) => match first.checked_add(1) {
                None => Err(RootsError::NoMemory),
                Some(next) => push_embedded(alloc, rest, next, roots),
            },
        },
    }
}

/// Reads descriptors, of which the first has this number, and puts their roots at the end.
#[tactic(auto, unfolding(crate::specs::Roots::fault_from, crate::specs::Roots::roots_from))]
fn push_given(
    alloc: Global,
    descriptors: &[Text],
    first: u32,
    roots: &mut Seq<Root>,
) -> Result<(), RootsError>
    ensures { AddsFrom first (given descriptors.now) roots.old roots.new result }
{
    match descriptors {
        [] => Ok(()),
        [descriptor, rest @ ..] => {
            match push_descriptor(alloc, descriptor.as_slice(), first, roots) {
                Err(fault) => Err(fault),
                Ok(()) => match first.checked_add(1) {
                    None => Err(RootsError::NoMemory),
                    Some(next) => push_given(alloc, rest, next, roots),
                },
            }
        }
    }
}

/// The roots of the embedded descriptors of these inputs, in their order, and then of the named descriptors; or the first descriptor
/// that can't be read.
pub fn descriptor_roots(
    alloc: Global,
    inputs: &[AsmRec],
    descriptors: &[Text],
) -> Result<Seq<Root>, RootsError>
    ensures { ReadsRoots inputs.now descriptors.now result }
{
    let mut roots = Seq::new(alloc);
    match push_embedded(alloc, inputs, 0, &mut roots) {
        Err(fault) => Err(fault),
        Ok(()) => match u32::try_from(inputs.len()) {
            Err(_) => Err(RootsError::NoMemory),
            Ok(first) => match push_given(alloc, descriptors, first, &mut roots) {
                Err(fault) => Err(fault),
                Ok(()) => Ok(roots),
            },
        },
    }
}
