//! All rows of the output but the first input's own.

ghost use Rattle.std.specs.Prelude.{◌≡◌, Some, slice_get, map, IfOk};
ghost use Rattle.std.specs.Option.{option_copied};
ghost use Rattle.resolver.specs.type_links.Index.{IsIndex};
ghost use Rattle.mark_parts.specs.mark_tables.Assemblies.{all_of, IsMarker};
ghost use Rattle.rules.specs.merge_rules.Refs.{Output};
ghost use Rattle.rules.specs.merge_rules.Moved.{moved_callee, kept_texts};
ghost use Rattle.rules.specs.merge_rules.Restricted.{new_text};
ghost use Rattle.reference_rows.specs.reference_scopes.Scopes.{recs_of, IsScopes};
ghost use Rattle.merge_plan.specs.declared.moved_parts.tokens.NewTokens.{NewTokens};
ghost use Rattle.merge_plan.specs.moved_parts.Moves.{new_token};
ghost use Rattle.merge_plan.specs.Kept.{kept_by};
ghost use Rattle.merge_plan.specs.kept_tables.Kept.{AreKept};
ghost use Rattle.token_keys.specs.world_keys.Keys.{IsWorldKeys};
ghost use Rattle.merged_tables.specs.merged_texts.Texts.{ArePlaces, texts_in};
ghost use Rattle.merged_tables.specs.merged_members.Laws.{HaveTokens};
ghost use Rattle.restrict.specs.output_tokens.Tokens.{AreTextsMet};
ghost use Rattle.merged_tables.specs.Parts.{output_by};
ghost use Rattle.merged_tables.specs.Rows.{AreMergedTables};
ghost use Rattle.restrict.specs.Plans.{HasNewNames};
ghost use Rattle.restrict.specs.Referring.{AreAttributesOf, AreReferring};
ghost use Rattle.restrict.specs.Rows.{AreSources, output_from, AreRowsOfAttributes, IsNaming, AreOutputRows};

use crate::member_rows::RowParts;
use crate::merged_attributes::laws::attributes_tell;
use crate::merged_attributes::{Attribute, attribute_rows};
use crate::output_tokens::all_tokens;
use crate::reference_tables::{ReferenceTables, reference_tables};
use crate::referring::{Referring, referring_with};
use il_base::world_model::{AsmRec, CustomAttributeRow, UserText};
use il_base::{NoMemory, Seq};
use mark_parts::mark_tables::marker::Marker;
use merge_plan::KeptItems;
use merge_plan::kept_tables::tables::KeptTables;
use merge_plan::moved_parts::NewTokens;
use merge_plan::outcome::Plan;
use merged_tables::merged_texts::laws::texts_tell;
use merged_tables::merged_texts::{Places, texts_met};
use merged_tables::{MergedTables, OutputParts, merged_tables};
use reference_rows::key_tokens::KeyTokens;
use reference_rows::number_tokens::laws::numbers_tell;
use reference_rows::number_tokens::number_tokens;
use reference_rows::reference_scopes::scopes::Scopes;
use reference_rows::tokens::TypeTokens;
use resolver::type_links::TypeIndex;
use std::alloc::Global;
use token_keys::world_keys::{WorldKeys, all_numbers};

/// The rows of the output but the first input's own, and the token of its entry point.
#[derive(Drop)]
pub(crate) struct OutputRows {
    pub(crate) entry: u32,
    pub(crate) tables: MergedTables,
    pub(crate) references: ReferenceTables,
    pub(crate) attributes: Seq<CustomAttributeRow>,
    pub(crate) user: Seq<UserText>,
}

/// The rows of references, and the new tokens of each assembly.
#[derive(Drop)]
pub(crate) struct Naming {
    references: ReferenceTables,
    tokens: Vec<NewTokens>,
}

/// A world with its keys, its kept items with their tables, the new names of its types, and the tokens of the output by keys.
#[derive(Clone, Copy)]
pub(crate) struct Sources<'a> {
    pub(crate) world: WorldKeys<'a>,
    pub(crate) keys: KeyTokens<'a>,
    pub(crate) index: &'a TypeIndex<'a>,
    pub(crate) kept: &'a KeptItems,
    pub(crate) plan: &'a Plan,
    pub(crate) tables: &'a KeptTables,
}

/// The new tokens of the assembly in a place, from 0.
fn tokens_at(tokens: &[NewTokens], asm: u32) -> Option<&NewTokens>
    ensures { option_copied result ≡ slice_get tokens.now asm }
{
    tokens.get(asm as usize)
}

/// The new token of a method that the first assembly names.
fn first_callee(tokens: &[NewTokens], token: u32) -> Result<u32, NoMemory>
    ensures { IfOk result (λ new. (t : NewTokens) → slice_get tokens.now 0 ≡ Some t → new ≡ new_token t.callees token) }
{
    match tokens_at(tokens, 0) {
        Some(new) => Ok(new.callees.get(token)),
        None => Err(NoMemory),
    }
}

/// The token of the entry point of the first assembly, `first`.
fn entry_of(tokens: &[NewTokens], first: &AsmRec) -> Result<u32, NoMemory>
    ensures { IfOk result (λ entry. (o : Output) → HaveTokens o tokens.now → slice_get o.recs 0 ≡ Some first.now → entry ≡ moved_callee o 0 first.now first.now.entry) }
{
    let entry = first_callee(tokens, first.entry)?;
    Ok(entry)
}

/// The rows of these attributes.
fn rows_of_attributes(
    alloc: Global,
    sources: &Sources<'_>,
    attributes: &[Attribute],
) -> Result<Seq<CustomAttributeRow>, NoMemory>
    requires sources { AreSources sources.now }
    requires attributes { AreAttributesOf (output_from sources.now) attributes.now }
    ensures { IfOk result (AreRowsOfAttributes (output_from sources.now)) }
{
    attributes_tell();
    let rows = attribute_rows(alloc, &sources.keys, attributes)?;
    Ok(rows)
}

/// The texts of kept methods.
fn texts_of<'a>(alloc: Global, sources: &Sources<'a>) -> Result<Places<'a>, NoMemory>
    requires sources { AreSources sources.now }
    ensures places { IfOk result ArePlaces }
    ensures met { IfOk result (λ texts. AreTextsMet (output_from sources.now) (texts_in texts)) }
{
    let index = sources.index;
    let tables = sources.tables;
    let methods = tables.items.methods.rows();
    let texts = texts_met(alloc, index.all, methods)?;
    Ok(texts)
}

/// The rows of these texts.
fn rows_of_texts(alloc: Global, texts: &Places<'_>) -> Result<Seq<UserText>, NoMemory>
    requires texts { ArePlaces texts.now }
    ensures { IfOk result (λ user. (o : Output) → AreTextsMet o (texts_in texts.now) → user ≡ map (new_text o) (kept_texts o)) }
{
    texts_tell();
    let user = texts.user_texts(alloc)?;
    Ok(user)
}

/// The rows of references, and the new tokens of each assembly. `texts` are those of kept methods.
fn naming_of(alloc: Global, sources: &Sources<'_>, texts: &Places<'_>) -> Result<Naming, NoMemory>
    requires sources { AreSources sources.now }
    requires texts { ArePlaces texts.now }
    requires met { AreTextsMet (output_from sources.now) (texts_in texts.now) }
    ensures { IfOk result (IsNaming (output_from sources.now)) }
{
    numbers_tell();
    let numbers = number_tokens(alloc, &sources.keys.types)?;
    let parts = RowParts {
        world: sources.world,
        keys: sources.keys,
        numbers: &numbers,
    };
    let references = reference_tables(alloc, &parts)?;
    let tokens = all_tokens(alloc, &parts, texts)?;
    Ok(Naming { references, tokens })
}

/// The tables of kept rows, with the new tokens of each assembly.
fn tables_with(
    alloc: Global,
    sources: &Sources<'_>,
    tokens: &[NewTokens],
) -> Result<MergedTables, NoMemory>
    requires sources { AreSources sources.now }
    requires tokens { HaveTokens (output_from sources.now) tokens.now }
    ensures { IfOk result (AreMergedTables sources.now.plan.now.internal (output_from sources.now)) }
{
    let index = sources.index;
    let world = sources.world;
    let output = OutputParts {
        recs: index.all,
        marker: world.marker,
        index,
        kept: sources.kept,
        plan: sources.plan,
        tables: sources.tables,
        tokens,
    };
    let rows = merged_tables(alloc, &output)?;
    Ok(rows)
}

/// The rows of the output, made of its tables, references, attributes and texts. `first` is the first assembly.
fn rows_of(
    alloc: Global,
    sources: &Sources<'_>,
    attributes: &[Attribute],
    first: &AsmRec,
) -> Result<OutputRows, NoMemory>
    requires sources { AreSources sources.now }
    requires attributes { AreAttributesOf (output_from sources.now) attributes.now }
    requires first { slice_get sources.now.index.now.all.now 0 ≡ Some first.now }
    ensures { IfOk result (AreOutputRows sources.now.plan.now.internal (output_from sources.now) first.now) }
{
    let attributes = rows_of_attributes(alloc, sources, attributes)?;
    let texts = texts_of(alloc, sources)?;
    let user = rows_of_texts(alloc, &texts)?;
    let naming = naming_of(alloc, sources, &texts)?;
    let tokens = naming.tokens.as_slice();
    let entry = entry_of(tokens, first)?;
    let tables = tables_with(alloc, sources, tokens)?;
    Ok(OutputRows {
        entry,
        tables,
        references: naming.references,
        attributes,
        user,
    })
}

/// The rows of the output, by the references in `met`. `first` is the first assembly.
fn rows_with(
    alloc: Global,
    world: &WorldKeys<'_>,
    index: &TypeIndex<'_>,
    scopes: &Scopes<'_>,
    kept: &KeptItems,
    plan: &Plan,
    tables: &KeptTables,
    met: &Referring,
    first: &AsmRec,
) -> Result<OutputRows, NoMemory>
    requires world { IsWorldKeys world.now }
    requires index { IsIndex index.now }
    requires same { all_of world.now.marker.now ≡ index.now.all.now }
    requires scopes { IsScopes scopes.now }
    requires scoped { recs_of scopes.now ≡ index.now.all.now }
    requires plan { HasNewNames index.now.all.now (kept_by kept.now) plan.now }
    requires tables { AreKept index.now.all.now (kept_by kept.now) tables.now }
    requires met { AreReferring (output_by index.now.all.now (kept_by kept.now)) met.now }
    requires first { slice_get index.now.all.now 0 ≡ Some first.now }
    ensures { IfOk result (AreOutputRows plan.now.internal (output_by index.now.all.now (kept_by kept.now)) first.now) }
{
    let items = &tables.items;
    let references = &met.references;
    let types = TypeTokens {
        scopes,
        refs: &references.types,
        kept: &items.types,
    };
    let keys = KeyTokens {
        types,
        methods: &items.methods,
        fields: &items.fields,
        specs: &references.specs,
        members: &references.members,
        instances: &references.instances,
        locals: &references.locals,
    };
    let sources = Sources {
        world: *world,
        keys,
        index,
        kept,
        plan,
        tables,
    };
    rows_of(alloc, &sources, met.attributes.as_slice(), first)
}

/// The rows of the output with these tables. `first` is the first assembly.
fn rows_by(
    alloc: Global,
    world: &WorldKeys<'_>,
    index: &TypeIndex<'_>,
    scopes: &Scopes<'_>,
    kept: &KeptItems,
    plan: &Plan,
    tables: &KeptTables,
    first: &AsmRec,
) -> Result<OutputRows, NoMemory>
    requires world { IsWorldKeys world.now }
    requires index { IsIndex index.now }
    requires same { all_of world.now.marker.now ≡ index.now.all.now }
    requires scopes { IsScopes scopes.now }
    requires scoped { recs_of scopes.now ≡ index.now.all.now }
    requires plan { HasNewNames index.now.all.now (kept_by kept.now) plan.now }
    requires tables { AreKept index.now.all.now (kept_by kept.now) tables.now }
    requires first { slice_get index.now.all.now 0 ≡ Some first.now }
    ensures { IfOk result (AreOutputRows plan.now.internal (output_by index.now.all.now (kept_by kept.now)) first.now) }
{
    let met = referring_with(alloc, world, index, scopes, kept, tables)?;
    rows_with(alloc, world, index, scopes, kept, plan, tables, &met, first)
}

/// The rows of the output of a world with these kept items, whose types have these new names. `first` is the first assembly.
pub(crate) fn output_rows(
    alloc: Global,
    marker: &Marker<'_>,
    index: &TypeIndex<'_>,
    kept: &KeptItems,
    plan: &Plan,
    first: &AsmRec,
) -> Result<OutputRows, NoMemory>
    requires marker { IsMarker marker.now }
    requires index { IsIndex index.now }
    requires same { all_of marker.now ≡ index.now.all.now }
    requires plan { HasNewNames index.now.all.now (kept_by kept.now) plan.now }
    requires first { slice_get index.now.all.now 0 ≡ Some first.now }
    ensures { IfOk result (AreOutputRows plan.now.internal (output_by index.now.all.now (kept_by kept.now)) first.now) }
{
    let tables = KeptTables::of(alloc, index.all, kept)?;
    let scopes = Scopes::of(alloc, index)?;
    let numbers = all_numbers(alloc, marker, &scopes.references)?;
    let world = WorldKeys {
        marker,
        numbers: numbers.as_slice(),
    };
    rows_by(alloc, &world, index, &scopes, kept, plan, &tables, first)
}
