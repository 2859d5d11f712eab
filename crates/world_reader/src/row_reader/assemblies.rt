//! Rows on assemblies, modules, files and resources.
#![tactic(auto, unfolding(il_base::specs::cli_format::Tables::column_of, il_base::specs::cli_format::Columns::columns_of, il_base::specs::cli_format::Columns::schema, rules::specs::record_format::Types::module_row, rules::specs::record_format::Types::module_ref_row, rules::specs::record_format::Types::assembly_row, rules::specs::record_format::Types::assembly_processor_row, rules::specs::record_format::Types::assembly_os_row, rules::specs::record_format::Types::assembly_ref_row, rules::specs::record_format::Types::assembly_ref_processor_row, rules::specs::record_format::Types::assembly_ref_os_row, rules::specs::record_format::Types::exported_type_row, rules::specs::record_format::Others::file_row, rules::specs::record_format::Others::manifest_resource_row))]

ghost use Rattle.il_base.specs.declared.table.TheConstants.{ASSEMBLY, ASSEMBLY_OS, ASSEMBLY_PROCESSOR, ASSEMBLY_REF, ASSEMBLY_REF_OS, ASSEMBLY_REF_PROCESSOR, EXPORTED_TYPE, FILE, MANIFEST_RESOURCE, MODULE, MODULE_REF};
ghost use Rattle.il_base.specs.cli_format.Image.{metadata_of};
ghost use Rattle.rules.specs.record_format.Types.{module_row, module_ref_row, assembly_row, assembly_processor_row, assembly_os_row, assembly_ref_row, assembly_ref_processor_row, assembly_ref_os_row, exported_type_row};
ghost use Rattle.rules.specs.record_format.Others.{file_row, manifest_resource_row};

use crate::cell_reader::Assembly;
use crate::row_reader::row::Row;
use il_base::world_model::{
    AssemblyOsRow, AssemblyProcessorRow, AssemblyRefOsRow, AssemblyRefProcessorRow, AssemblyRefRow,
    AssemblyRow, ExportedTypeRow, FileRow, ManifestResourceRow, ModuleRefRow, ModuleRow,
};
use il_base::{NoMemory, table};
use std::alloc::Global;

/// Module (II.22.30).
impl Row for ModuleRow {
    const TABLE: u8 = table::MODULE;

    ghost TABLE = { MODULE };

    ghost row_of = { λ bs r. module_row (metadata_of bs) r };

    fn read(alloc: Global, file: &Assembly, row: u32) -> Result<ModuleRow, NoMemory> {
        let generation = file.half(table::MODULE, 0, row);
        let name = file.text(alloc, table::MODULE, 1, row)?;
        let mvid = file.guid(alloc, table::MODULE, 2, row)?;
        let enc_id = file.guid(alloc, table::MODULE, 3, row)?;
        let enc_base_id = file.guid(alloc, table::MODULE, 4, row)?;
        Ok(ModuleRow {
            generation,
            name,
            mvid,
            enc_id,
            enc_base_id,
        })
    }
}

/// ModuleRef (II.22.31).
impl Row for ModuleRefRow {
    const TABLE: u8 = table::MODULE_REF;

    ghost TABLE = { MODULE_REF };

    ghost row_of = { λ bs r. module_ref_row (metadata_of bs) r };

    fn read(alloc: Global, file: &Assembly, row: u32) -> Result<ModuleRefRow, NoMemory> {
        let name = file.text(alloc, table::MODULE_REF, 0, row)?;
        Ok(ModuleRefRow { name })
    }
}

/// Assembly (II.22.2).
impl Row for AssemblyRow {
    const TABLE: u8 = table::ASSEMBLY;

    ghost TABLE = { ASSEMBLY };

    ghost row_of = { λ bs r. assembly_row (metadata_of bs) r };

    fn read(alloc: Global, file: &Assembly, row: u32) -> Result<AssemblyRow, NoMemory> {
        let hash_alg_id = file.word(table::ASSEMBLY, 0, row);
        let major_version = file.half(table::ASSEMBLY, 1, row);
        let minor_version = file.half(table::ASSEMBLY, 2, row);
        let build_number = file.half(table::ASSEMBLY, 3, row);
        let revision_number = file.half(table::ASSEMBLY, 4, row);
        let flags = file.word(table::ASSEMBLY, 5, row);
        let public_key = file.blob_copy(alloc, table::ASSEMBLY, 6, row)?;
        let name = file.text(alloc, table::ASSEMBLY, 7, row)?;
        let culture = file.text(alloc, table::ASSEMBLY, 8, row)?;
        Ok(AssemblyRow {
            hash_alg_id,
            major_version,
            minor_version,
            build_number,
            revision_number,
            flags,
            public_key,
            name,
            culture,
        })
    }
}

/// AssemblyProcessor (II.22.4).
impl Row for AssemblyProcessorRow {
    const TABLE: u8 = table::ASSEMBLY_PROCESSOR;

    ghost TABLE = { ASSEMBLY_PROCESSOR };

    ghost row_of = { λ bs r. assembly_processor_row (metadata_of bs) r };

    fn read(_alloc: Global, file: &Assembly, row: u32) -> Result<AssemblyProcessorRow, NoMemory> {
        let processor = file.word(table::ASSEMBLY_PROCESSOR, 0, row);
        Ok(AssemblyProcessorRow { processor })
    }
}

/// AssemblyOs (II.22.3).
impl Row for AssemblyOsRow {
    const TABLE: u8 = table::ASSEMBLY_OS;

    ghost TABLE = { ASSEMBLY_OS };

    ghost row_of = { λ bs r. assembly_os_row (metadata_of bs) r };

    fn read(_alloc: Global, file: &Assembly, row: u32) -> Result<AssemblyOsRow, NoMemory> {
        let platform_id = file.word(table::ASSEMBLY_OS, 0, row);
        let major_version = file.word(table::ASSEMBLY_OS, 1, row);
        let minor_version = file.word(table::ASSEMBLY_OS, 2, row);
        Ok(AssemblyOsRow {
            platform_id,
            major_version,
            minor_version,
        })
    }
}

/// AssemblyRef (II.22.5).
impl Row for AssemblyRefRow {
    const TABLE: u8 = table::ASSEMBLY_REF;

    ghost TABLE = { ASSEMBLY_REF };

    ghost row_of = { λ bs r. assembly_ref_row (metadata_of bs) r };

    fn read(alloc: Global, file: &Assembly, row: u32) -> Result<AssemblyRefRow, NoMemory> {
        let major_version = file.half(table::ASSEMBLY_REF, 0, row);
        let minor_version = file.half(table::ASSEMBLY_REF, 1, row);
        let build_number = file.half(table::ASSEMBLY_REF, 2, row);
        let revision_number = file.half(table::ASSEMBLY_REF, 3, row);
        let flags = file.word(table::ASSEMBLY_REF, 4, row);
        let public_key_or_token = file.blob_copy(alloc, table::ASSEMBLY_REF, 5, row)?;
        let name = file.text(alloc, table::ASSEMBLY_REF, 6, row)?;
        let culture = file.text(alloc, table::ASSEMBLY_REF, 7, row)?;
        let hash_value = file.blob_copy(alloc, table::ASSEMBLY_REF, 8, row)?;
        Ok(AssemblyRefRow {
            major_version,
            minor_version,
            build_number,
            revision_number,
            flags,
            public_key_or_token,
            name,
            culture,
            hash_value,
        })
    }
}

/// AssemblyRefProcessor (II.22.7).
impl Row for AssemblyRefProcessorRow {
    const TABLE: u8 = table::ASSEMBLY_REF_PROCESSOR;

    ghost TABLE = { ASSEMBLY_REF_PROCESSOR };

    ghost row_of = { λ bs r. assembly_ref_processor_row (metadata_of bs) r };

    fn read(
        _alloc: Global,
        file: &Assembly,
        row: u32,
    ) -> Result<AssemblyRefProcessorRow, NoMemory> {
        let processor = file.word(table::ASSEMBLY_REF_PROCESSOR, 0, row);
        let assembly_ref = file.token(table::ASSEMBLY_REF_PROCESSOR, 1, row);
        Ok(AssemblyRefProcessorRow {
            processor,
            assembly_ref,
        })
    }
}

/// AssemblyRefOs (II.22.6).
impl Row for AssemblyRefOsRow {
    const TABLE: u8 = table::ASSEMBLY_REF_OS;

    ghost TABLE = { ASSEMBLY_REF_OS };

    ghost row_of = { λ bs r. assembly_ref_os_row (metadata_of bs) r };

    fn read(_alloc: Global, file: &Assembly, row: u32) -> Result<AssemblyRefOsRow, NoMemory> {
        let platform_id = file.word(table::ASSEMBLY_REF_OS, 0, row);
        let major_version = file.word(table::ASSEMBLY_REF_OS, 1, row);
        let minor_version = file.word(table::ASSEMBLY_REF_OS, 2, row);
        let assembly_ref = file.token(table::ASSEMBLY_REF_OS, 3, row);
        Ok(AssemblyRefOsRow {
            platform_id,
            major_version,
            minor_version,
            assembly_ref,
        })
    }
}

/// File (II.22.19).
impl Row for FileRow {
    const TABLE: u8 = table::FILE;

    ghost TABLE = { FILE };

    ghost row_of = { λ bs r. file_row (metadata_of bs) r };

    fn read(alloc: Global, file: &Assembly, row: u32) -> Result<FileRow, NoMemory> {
        let flags = file.word(table::FILE, 0, row);
        let name = file.text(alloc, table::FILE, 1, row)?;
        let hash_value = file.blob_copy(alloc, table::FILE, 2, row)?;
        Ok(FileRow {
            flags,
            name,
            hash_value,
        })
    }
}

/// ExportedType (II.22.14).
impl Row for ExportedTypeRow {
    const TABLE: u8 = table::EXPORTED_TYPE;

    ghost TABLE = { EXPORTED_TYPE };

    ghost row_of = { λ bs r. exported_type_row (metadata_of bs) r };

    fn read(alloc: Global, file: &Assembly, row: u32) -> Result<ExportedTypeRow, NoMemory> {
        let flags = file.word(table::EXPORTED_TYPE, 0, row);
        let type_def_id = file.word(table::EXPORTED_TYPE, 1, row);
        let name = file.text(alloc, table::EXPORTED_TYPE, 2, row)?;
        let namespace = file.text(alloc, table::EXPORTED_TYPE, 3, row)?;
        let implementation = file.token(table::EXPORTED_TYPE, 4, row);
        Ok(ExportedTypeRow {
            flags,
            type_def_id,
            name,
            namespace,
            implementation,
        })
    }
}

/// ManifestResource (II.22.24).
impl Row for ManifestResourceRow {
    const TABLE: u8 = table::MANIFEST_RESOURCE;

    ghost TABLE = { MANIFEST_RESOURCE };

    ghost row_of = { λ bs r. manifest_resource_row (metadata_of bs) r };

    fn read(alloc: Global, file: &Assembly, row: u32) -> Result<ManifestResourceRow, NoMemory> {
        let offset = file.word(table::MANIFEST_RESOURCE, 0, row);
        let flags = file.word(table::MANIFEST_RESOURCE, 1, row);
        let name = file.text(alloc, table::MANIFEST_RESOURCE, 2, row)?;
        let implementation = file.token(table::MANIFEST_RESOURCE, 3, row);
        Ok(ManifestResourceRow {
            offset,
            flags,
            name,
            implementation,
        })
    }
}
