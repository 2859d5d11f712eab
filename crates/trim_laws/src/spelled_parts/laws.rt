ghost use Rattle.trim_laws.specs.spelled_parts.Laws.{CoreIsSpelled, FilesAreSpelled, LeftIsSpelled};

use il_base::blob_grammar::laws::{fields, instances, locals, methods, properties, types, values};
use il_base::body_grammar::read_body_is_spelled;

/// A law: each signature and body of a file's record that has a reading has a spelling. It does nothing.
pub fn files_are_spelled()
    ensures { FilesAreSpelled }
{
    types();
    methods();
    properties();
    fields();
    locals();
    instances();
    read_body_is_spelled();
}

/// A law: so has each of the core library's record. It does nothing.
pub fn core_is_spelled()
    ensures { CoreIsSpelled }
{
    values();
}

/// A law: so has each of the record that is left of records that have them, where each token in a signature of it is of a type.
/// It does nothing.
pub fn left_is_spelled()
    ensures { LeftIsSpelled }
{
    values();
}
