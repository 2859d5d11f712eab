//! Rows on assemblies and modules. Indices are tokens (the table's number in the high byte), 0 for none; names are UTF-8.

use crate::Text;

/// A row of ModuleRef (II.22.31).
#[derive(Drop)]
pub struct ModuleRefRow {
    pub name: Text,
}

/// A row of Assembly (II.22.2).
#[derive(Drop)]
pub struct AssemblyRow {
    pub hash_alg_id: u32,
    pub major_version: u16,
    pub minor_version: u16,
    pub build_number: u16,
    pub revision_number: u16,
    pub flags: u32,
    pub public_key: Text,
    pub name: Text,
    pub culture: Text,
}

/// A row of AssemblyProcessor (II.22.4).
#[derive(Drop)]
pub struct AssemblyProcessorRow {
    pub processor: u32,
}

/// A row of AssemblyOs (II.22.3).
#[derive(Drop)]
pub struct AssemblyOsRow {
    pub platform_id: u32,
    pub major_version: u32,
    pub minor_version: u32,
}

/// A row of AssemblyRef (II.22.5).
#[derive(Drop)]
pub struct AssemblyRefRow {
    pub major_version: u16,
    pub minor_version: u16,
    pub build_number: u16,
    pub revision_number: u16,
    pub flags: u32,
    pub public_key_or_token: Text,
    pub name: Text,
    pub culture: Text,
    pub hash_value: Text,
}

/// A row of AssemblyRefProcessor (II.22.7).
#[derive(Drop)]
pub struct AssemblyRefProcessorRow {
    pub processor: u32,
    /// An AssemblyRef token.
    pub assembly_ref: u32,
}

/// A row of AssemblyRefOs (II.22.6).
#[derive(Drop)]
pub struct AssemblyRefOsRow {
    pub platform_id: u32,
    pub major_version: u32,
    pub minor_version: u32,
    /// An AssemblyRef token.
    pub assembly_ref: u32,
}
