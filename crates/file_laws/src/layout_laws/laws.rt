ghost use Rattle.std.specs.Prelude.{◌≡◌, ℕ, List, None};
ghost use Rattle.il_base.specs.blob_grammar.Laws.{AreBytes};
ghost use Rattle.il_base.specs.declared.world_model.record.AsmRec.{AsmRec};
ghost use Rattle.rules.specs.record_format.Record.{HasRecord};
ghost use Rattle.rules.specs.record_layout.Laid.{laid};
ghost use Rattle.rules.specs.record_layout.Limits.{limit_of};
ghost use Rattle.file_laws.specs.layout_laws.CanBeLaid.{CanBeLaid};
ghost use Rattle.file_laws.specs.layout_laws.OfFile.{AsLaid};

use crate::record_laws::laws::file_has_record;
use crate::written_image::laws::{images, metadata};
use crate::written_tables::laws::{each_once, heaps, tables};
use il_base::blob_grammar::laws::{fields, instances, locals, methods, properties, types, values};
use il_base::body_grammar::written_body_is_read;

/// A record that can be laid out is that of the file that it is laid out in, where that passes no limit: no table has more than
/// 2^20 rows, no run begins after the last of exactly 65535, `#US` has at most 2^24 bytes, the file at most 2^28.
pub fn reads_back()
    ensures { (rec : AsmRec) → CanBeLaid rec → limit_of rec ≡ None → HasRecord (laid rec) rec }
{
    images();
    metadata();
    tables();
    heaps();
    each_once();
    types();
    methods();
    properties();
    fields();
    locals();
    instances();
    values();
    written_body_is_read();
}

/// The record of a file can be laid out where nothing in it is without a meaning, and its descriptor, addresses and texts are as the
/// layout has them.
pub fn file_can_be_laid()
    ensures { (bs : List ℕ) (rec : AsmRec) → AreBytes bs → HasRecord bs rec → AsLaid rec → CanBeLaid rec }
{
    types();
    methods();
    properties();
    fields();
    locals();
    instances();
    values();
    file_has_record();
}
