ghost use Rattle.trim_laws.specs.trim_behaves.Behaves.{TrimsBehave};
ghost use Rattle.trim_laws.specs.trim_behaves.Laws.{FilesAreFew, FilesMerge};

use crate::added_names::laws::{met_there, names_stay, signatures_read, tokens_read};
use crate::flagged_marks::laws::flags_follow;
use crate::kept_parts::laws::{core_is_plain, parts_stay};
use crate::marked_loads::laws::{entry_type_is_left, trim_loads};
use crate::marked_mets::laws::{members_are_kept, mets_are_kept};
use crate::member_parents::laws::all_named;
use crate::merged_back::laws::{fields_read, marked_links};
use crate::merged_code::laws::methods_move;
use crate::merged_fields::laws::fields_move;
use crate::merged_scopes::laws::references_stand;
use crate::merged_uses::laws::{callees_read, field_tokens_read, impls_read};
use crate::trim_moves::laws::{bases_are_good, flags_say, interfaces_are_good, left_is_record};
use crate::trim_runs::laws::{entry_moves, programs_run};
use file_laws::record_laws::laws::file_has_record;
use merge_laws::merged_owners::laws::owners_stay;
use merge_laws::merged_places::laws::undone;
use merge_laws::merged_standing::laws::reference_rows_stand;

/// A law: what a trim of files writes loads, links and runs as they do. It does nothing.
pub fn trims_behave()
    ensures { TrimsBehave }
{
    mets_are_kept();
    members_are_kept();
    owners_stay();
    names_stay();
    met_there();
    reference_rows_stand();
    references_stand();
    all_named();
    marked_links();
    left_is_record();
    tokens_read();
    signatures_read();
    fields_read();
    callees_read();
    field_tokens_read();
    impls_read();
    parts_stay();
    core_is_plain();
    flags_follow();
    flags_say();
    bases_are_good();
    interfaces_are_good();
    undone();
    methods_move();
    fields_move();
    entry_moves();
    programs_run();
    entry_type_is_left();
    trim_loads();
}

/// A law: a file has no more rows in a table than tokens can name. It does nothing.
pub fn files_are_few()
    ensures { FilesAreFew }
{}

/// A law: what is left of files that link is a merge of records. It does nothing.
pub fn files_merge()
    ensures { FilesMerge }
{
    file_has_record();
}
