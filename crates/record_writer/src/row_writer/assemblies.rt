//! Rows on assemblies and modules.

ghost use Rattle.il_base.specs.declared.table.TheConstants.{MODULE_REF, ASSEMBLY, ASSEMBLY_PROCESSOR, ASSEMBLY_OS, ASSEMBLY_REF, ASSEMBLY_REF_PROCESSOR, ASSEMBLY_REF_OS};
ghost use Rattle.rules.specs.record_layout.Rows as layout;

use crate::row_writer::row::{Row, blob, listed, text};
use il_base::world_model::{
    AssemblyOsRow, AssemblyProcessorRow, AssemblyRefOsRow, AssemblyRefProcessorRow, AssemblyRefRow,
    AssemblyRow, ModuleRefRow,
};
use il_base::{NoMemory, Seq, table};
use rules::record_layout::Value;
use std::alloc::Global;

/// ModuleRef (II.22.31).
impl Row for ModuleRefRow {
    const TABLE: u8 = table::MODULE_REF;

    ghost TABLE = { MODULE_REF };

    ghost values_of = { layout.module_ref_values };

    ghost CanWrite = { λ _. Unit {0} };

    fn values(&self, alloc: Global) -> Result<Seq<Value>, NoMemory> {
        let name = text(alloc, &self.name)?;
        listed(alloc, [name])
    }
}

/// Assembly (II.22.2).
impl Row for AssemblyRow {
    const TABLE: u8 = table::ASSEMBLY;

    ghost TABLE = { ASSEMBLY };

    ghost values_of = { layout.assembly_values };

    ghost CanWrite = { λ _. Unit {0} };

    fn values(&self, alloc: Global) -> Result<Seq<Value>, NoMemory> {
        let public_key = blob(alloc, &self.public_key)?;
        let name = text(alloc, &self.name)?;
        let culture = text(alloc, &self.culture)?;
        listed(
            alloc,
            [
                Value::Number(self.hash_alg_id),
                Value::Number(u32::from(self.major_version)),
                Value::Number(u32::from(self.minor_version)),
                Value::Number(u32::from(self.build_number)),
                Value::Number(u32::from(self.revision_number)),
                Value::Number(self.flags),
                public_key,
                name,
                culture,
            ],
        )
    }
}

/// AssemblyProcessor (II.22.4).
impl Row for AssemblyProcessorRow {
    const TABLE: u8 = table::ASSEMBLY_PROCESSOR;

    ghost TABLE = { ASSEMBLY_PROCESSOR };

    ghost values_of = { layout.assembly_processor_values };

    ghost CanWrite = { λ _. Unit {0} };

    fn values(&self, alloc: Global) -> Result<Seq<Value>, NoMemory> {
        listed(alloc, [Value::Number(self.processor)])
    }
}

/// AssemblyOS (II.22.3).
impl Row for AssemblyOsRow {
    const TABLE: u8 = table::ASSEMBLY_OS;

    ghost TABLE = { ASSEMBLY_OS };

    ghost values_of = { layout.assembly_os_values };

    ghost CanWrite = { λ _. Unit {0} };

    fn values(&self, alloc: Global) -> Result<Seq<Value>, NoMemory> {
        listed(
            alloc,
            [
                Value::Number(self.platform_id),
                Value::Number(self.major_version),
                Value::Number(self.minor_version),
            ],
        )
    }
}

/// AssemblyRef (II.22.5).
impl Row for AssemblyRefRow {
    const TABLE: u8 = table::ASSEMBLY_REF;

    ghost TABLE = { ASSEMBLY_REF };

    ghost values_of = { layout.assembly_ref_values };

    ghost CanWrite = { λ _. Unit {0} };

    fn values(&self, alloc: Global) -> Result<Seq<Value>, NoMemory> {
        let public_key_or_token = blob(alloc, &self.public_key_or_token)?;
        let name = text(alloc, &self.name)?;
        let culture = text(alloc, &self.culture)?;
        let hash_value = blob(alloc, &self.hash_value)?;
        listed(
            alloc,
            [
                Value::Number(u32::from(self.major_version)),
                Value::Number(u32::from(self.minor_version)),
                Value::Number(u32::from(self.build_number)),
                Value::Number(u32::from(self.revision_number)),
                Value::Number(self.flags),
                public_key_or_token,
                name,
                culture,
                hash_value,
            ],
        )
    }
}

/// AssemblyRefProcessor (II.22.7).
impl Row for AssemblyRefProcessorRow {
    const TABLE: u8 = table::ASSEMBLY_REF_PROCESSOR;

    ghost TABLE = { ASSEMBLY_REF_PROCESSOR };

    ghost values_of = { layout.assembly_ref_processor_values };

    ghost CanWrite = { λ _. Unit {0} };

    fn values(&self, alloc: Global) -> Result<Seq<Value>, NoMemory> {
        listed(
            alloc,
            [
                Value::Number(self.processor),
                Value::Token(self.assembly_ref),
            ],
        )
    }
}

/// AssemblyRefOS (II.22.6).
impl Row for AssemblyRefOsRow {
    const TABLE: u8 = table::ASSEMBLY_REF_OS;

    ghost TABLE = { ASSEMBLY_REF_OS };

    ghost values_of = { layout.assembly_ref_os_values };

    ghost CanWrite = { λ _. Unit {0} };

    fn values(&self, alloc: Global) -> Result<Seq<Value>, NoMemory> {
        listed(
            alloc,
            [
                Value::Number(self.platform_id),
                Value::Number(self.major_version),
                Value::Number(self.minor_version),
                Value::Token(self.assembly_ref),
            ],
        )
    }
}
