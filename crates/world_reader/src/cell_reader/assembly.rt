ghost use Rattle.std.specs.Prelude.{◌≡◌, ◌<◌, ◌^◌, length, map, IfSome};
ghost use Rattle.std.specs.Option.{option_map};
ghost use Rattle.il_base.specs.cli_format.Image.{image_demands, metadata_of, image_at, image_tail};
ghost use Rattle.il_base.specs.cli_format.Metadata.{Read};
ghost use Rattle.il_base.specs.world_model.Tokens.{table_of, row_of};
ghost use Rattle.rules.specs.record_format.Record.{as_demand, record_demands, place_by};

use il_base::NoMemory;
use il_base::cli_format::TablesError;
use il_base::world_model::{row_of, table_of};
use meta_tables::Tables;
use pe_image::{Image, ImageMap};
use std::alloc::Global;
use std::marker::Model;

/// A file that meets the demands on an assembly (II.22 to II.25): the map of its image, and its tables. Contracts see the bytes
/// of the file.
#[derive(Drop)]
pub struct Assembly<'a> {
    map: ImageMap<'a>,
    pub(crate) tables: Tables<'a>,
}

impl<'a> Model for Assembly<'a> {
    ghost use Rattle.std.specs.Prelude.{◌≡◌, ◌+◌, ◌<◌, ◌^◌, ℕ, List, length, None};
    ghost use Rattle.il_base.specs.cli_format.Demand.{first_fault};
    ghost use Rattle.il_base.specs.cli_format.Image.{metadata_of, metadata_place_of};
    ghost use Rattle.il_base.specs.cli_format.Metadata.{tables_demands};

    ghost Value = { List ℕ };

    ghost view = { λ a. a.map };

    ghost invariant = { λ a. (a.tables ≡ metadata_of a.map) × (first_fault (tables_demands (metadata_of a.map) (metadata_place_of a.map)) ≡ None) × (metadata_place_of a.map + length (metadata_of a.map) < 2 ^ 32) };
}

impl<'a> Assembly<'a> {
    /// The assembly of a file. A refusal is that of the first demand that fails.
    #[tactic(auto, using(il_base::proofs::lemmas::cli_format::Faults::refusals), unfolding(rules::specs::record_format::Record::record_demands))]
    pub fn open(alloc: Global, bytes: &'a [u8]) -> Result<Assembly<'a>, TablesError>
        requires { length bytes.now < 2 ^ 32 }
        ensures { Read result (record_demands bytes.now) bytes.now }
    {
        let map = open_image(alloc, bytes)?;
        let image = map.image();
        let tables = Tables::read(alloc, image.metadata(), image.metadata_place())?;
        Ok(Assembly { map, tables })
    }

    /// The image of the file.
    pub fn image(&self) -> &Image<'a>
        ensures { result.now ≡ self.now }
    {
        self.map.image()
    }

    /// The `len` bytes that an RVA names: in the first section that it lies in, within its raw bytes (II.25.3).
    pub fn bytes_at(&self, rva: u32, len: u32) -> Option<&'a [u8]>
        ensures { option_map (λ b. b.now) result ≡ image_at self.now rva len }
    {
        self.map.at(rva, len)
    }

    /// The bytes from the one that an RVA names to the end of its section's raw bytes.
    pub fn tail(&self, rva: u32) -> Option<&'a [u8]>
        ensures value { option_map (λ b. b.now) result ≡ image_tail self.now rva }
        ensures within { IfSome result (λ b. length b.now < 2 ^ 32) }
    {
        self.map.tail(rva)
    }

    /// The place in the file of the row that a token names (II.22). None where there is no such row.
    pub fn row_place(&self, token: u32) -> Option<u32>
        ensures { result ≡ place_by self.now (metadata_of self.now) (table_of token) (row_of token) }
    {
        let base = self.map.image().metadata_place();
        self.tables.row_offset(base, table_of(token), row_of(token))
    }
}

/// The image of a file, with its look-up.
#[tactic(auto, using(il_base::proofs::lemmas::cli_format::Faults::refused_by, il_base::proofs::lemmas::cli_format::Faults::refused_memory, crate::proofs::lemmas::cell_reader::Mapped::mapped))]
fn open_image(alloc: Global, bytes: &[u8]) -> Result<ImageMap<'_>, TablesError>
    requires { length bytes.now < 2 ^ 32 }
    ensures { Read result (map as_demand (image_demands bytes.now)) bytes.now }
{
    let image = match Image::read(bytes) {
        Ok(image) => image,
        Err(bad) => return Err(TablesError::Bad(bad)),
    };
    match ImageMap::of(alloc, image) {
        Ok(map) => Ok(map),
        Err(NoMemory) => Err(TablesError::NoMemory),
    }
}
