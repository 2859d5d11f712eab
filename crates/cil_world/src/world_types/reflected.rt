//! The members that reflection finds in a type, and what it tells of them.

ghost use Rattle.std.specs.Prelude.{◌≡◌, ℕ, List, Option, Some, slice_get, IfOk};
ghost use Rattle.std.specs.Option.{option_and_then};
ghost use Rattle.il_base.specs.declared.world_model.expr.TypeExpr.{TypeExpr as Expr};
ghost use Rattle.il_base.specs.declared.world_model.record.AsmRec.{AsmRec as Records};
ghost use Rattle.il_base.specs.world_model.Worlds.{known_map, known_then};
ghost use Rattle.rules.specs.link_rules.Signatures.{names_at, method_type};
ghost use Rattle.rules.specs.type_rules.Rows.{field_row_at};
ghost use Rattle.rules.specs.type_rules.Slots.{method_row_at};
ghost use Rattle.rules.specs.view_rules.Answers.{searched, found_along, members_query, property_row_at, method_title, field_title, property_title, title_query, property_at, property_def, property_query};
ghost use Rattle.type_tables.specs.member_search.Linked.{IsScope};
ghost use Rattle.type_tables.specs.Tables.{AreRowsAt, IsTables};
ghost use Rattle.virtual_calls.specs.Slots.{AreSlots};
ghost use Rattle.virtual_calls.specs.named_members.Named.{found};

use crate::world_types::accessors::first_accessor;
use crate::world_types::bases::with_bases;
use il_base::cil_values::{MemberKind, PropertyDef};
use il_base::world_model::{AsmRec, Known, PropertyRow, TypeExpr};
use il_base::{Item, MethodSig, NoMemory, PropId, Seq, Text, semantics};
use mark_parts::mark_facts::rows::row_of;
use rules::link_rules::{MethodType, RowAt};
use rules::type_rules::FoundMember;
use std::alloc::Global;
use type_tables::member_search::bases::array_type;
use type_tables::member_search::linked::{Scope, assembly_at};
use type_tables::member_search::method_types::open_method_type;
use type_tables::methods::method_row_at;
use type_tables::tables::{Rows, Tables};
use virtual_calls::named_members::kinds::Kind;
use virtual_calls::named_members::named::found;
use virtual_calls::slots::Slots;

// ---- members of a type

/// A type whose members are looked for: an array has those of System.Array (I.8.9.1).
#[tactic(auto, unfolding(rules::specs::view_rules::Answers::searched))]
fn searched(alloc: Global, all: &[AsmRec], ty: &TypeExpr) -> Result<TypeExpr, NoMemory>
    ensures { IfOk result (λ e. e ≡ searched all.now ty.now) }
{
    match ty {
        TypeExpr::Array(_) => match array_type(all)? {
            Some(id) => Ok(TypeExpr::Def(id)),
            None => ty.copy(alloc),
        },
        TypeExpr::Prim(_) => ty.copy(alloc),
        TypeExpr::Def(_) => ty.copy(alloc),
        TypeExpr::Inst(_, _) => ty.copy(alloc),
        TypeExpr::ByRef(_) => ty.copy(alloc),
        TypeExpr::Var(_) => ty.copy(alloc),
        TypeExpr::MVar(_) => ty.copy(alloc),
        TypeExpr::Mod { .. } => ty.copy(alloc),
    }
}

fn kind_of(kind: MemberKind) -> Kind
    ensures { (recs : List Records) → (name : Option (List ℕ)) → (es : List Expr) → found recs name es result ≡ found_along recs kind name es }
{
    match kind {
        MemberKind::Method => Kind::Method,
        MemberKind::Field => Kind::Field,
        MemberKind::Property => Kind::Property,
    }
}

/// The members of a kind that a type has for reflection, all or those of a name.
#[tactic(auto, unfolding(rules::specs::view_rules::Answers::members_query))]
pub(crate) fn members(
    alloc: Global,
    tables: &Tables<'_>,
    slots: &Slots,
    kind: MemberKind,
    name: &Option<Text>,
    ty: &TypeExpr,
) -> Result<Seq<FoundMember>, NoMemory>
    requires tables { IsTables tables.now }
    requires slots { AreSlots tables.now.world.now.recs slots.now }
    ensures { IfOk result (λ members. members ≡ members_query tables.now.world.now.recs kind name.now ty.now) }
{
    let start = searched(alloc, tables.world.recs.as_slice(), ty)?;
    let types = with_bases(alloc, tables, &start)?;
    drop(start);
    let kind = kind_of(kind);
    let members = found(alloc, tables, slots, types.as_slice(), kind, name)?;
    Ok(members)
}

// ---- names

fn method_title(alloc: Global, all: &[AsmRec], home: Option<RowAt>) -> Result<Text, NoMemory>
    ensures { IfOk result (λ text. text ≡ method_title (option_and_then (method_row_at all.now) home)) }
{
    let Some(at) = home else {
        return Ok(Seq::new(alloc));
    };
    match method_row_at(all, at) {
        Some(row) => Seq::from_slice(alloc, row.name.as_slice()),
        None => Ok(Seq::new(alloc)),
    }
}

fn field_title(alloc: Global, all: &[AsmRec], home: Option<RowAt>) -> Result<Text, NoMemory>
    ensures { IfOk result (λ text. text ≡ field_title (option_and_then (field_row_at all.now) home)) }
{
    let Some(at) = home else {
        return Ok(Seq::new(alloc));
    };
    let Some(rec) = assembly_at(all, at.asm) else {
        return Ok(Seq::new(alloc));
    };
    match rec.field.get(at.row as usize) {
        Some(row) => Seq::from_slice(alloc, row.name.as_slice()),
        None => Ok(Seq::new(alloc)),
    }
}

fn property_title(alloc: Global, all: &[AsmRec], home: Option<RowAt>) -> Result<Text, NoMemory>
    ensures { IfOk result (λ text. text ≡ property_title (option_and_then (property_row_at all.now) home)) }
{
    let Some(at) = home else {
        return Ok(Seq::new(alloc));
    };
    let Some(rec) = assembly_at(all, at.asm) else {
        return Ok(Seq::new(alloc));
    };
    match rec.property.get(at.row as usize) {
        Some(row) => Seq::from_slice(alloc, row.name.as_slice()),
        None => Ok(Seq::new(alloc)),
    }
}

/// The name of a method, a field or a property.
#[tactic(auto, unfolding(rules::specs::view_rules::Answers::title_query, rules::specs::mark_rules::Places::row_of))]
pub(crate) fn title(alloc: Global, all: &[AsmRec], item: Item) -> Result<Text, NoMemory>
    ensures { IfOk result (λ text. text ≡ title_query all.now item) }
{
    let home = row_of(all, item)?;
    match item {
        Item::Method(_) => method_title(alloc, all, home),
        Item::Field(_) => field_title(alloc, all, home),
        Item::Prop(_) => property_title(alloc, all, home),
        Item::Asm(_) => Ok(Seq::new(alloc)),
        Item::Typ(_) => Ok(Seq::new(alloc)),
        Item::Event(_) => Ok(Seq::new(alloc)),
        Item::Impl(_) => Ok(Seq::new(alloc)),
    }
}

// ---- types of properties

fn returned(m: MethodType) -> TypeExpr
    ensures { result ≡ m.ret }
{
    m.ret
}

/// The type that a property's signature has where a method's has the type that is returned (II.23.2.5).
fn type_in(
    alloc: Global,
    scope: &Scope<'_>,
    sig: &Known<MethodSig>,
) -> Result<Known<TypeExpr>, NoMemory>
    requires { IsScope scope.now }
    ensures { IfOk result (λ ty. ty ≡ known_map (λ m. m.ret) (known_then (method_type (names_at scope.now.linked.all.now scope.now.asm scope.now.rec.now)) sig.now)) }
{
    match sig {
        Known::Bad(why) => Ok(Known::Bad(*why)),
        Known::Good(sig) => match open_method_type(alloc, scope, sig) {
            Ok(Known::Good(m)) => Ok(Known::Good(returned(m))),
            Ok(Known::Bad(why)) => Ok(Known::Bad(why)),
            Err(error) => Err(error),
        },
    }
}

/// The property in a row.
fn property_in(
    alloc: Global,
    tables: &Tables<'_>,
    rows: &Rows<'_>,
    at: RowAt,
    row: &PropertyRow,
) -> Result<PropertyDef, NoMemory>
    requires tables { IsTables tables.now }
    requires there { slice_get tables.now.world.now.recs at.asm ≡ Some rows.now.scope.rec.now }
    requires are { AreRowsAt tables.now at.asm rows.now }
    ensures { IfOk result (λ found. found ≡ property_def tables.now.world.now.recs at rows.now.scope.rec.now row.now) }
{
    let typ = type_in(alloc, &rows.scope, &row.signature)?;
    let all = tables.world.recs.as_slice();
    let getter = first_accessor(
        alloc,
        all,
        rows.scope.rec,
        rows.tables,
        semantics::GETTER,
        at,
    )?;
    let setter = first_accessor(
        alloc,
        all,
        rows.scope.rec,
        rows.tables,
        semantics::SETTER,
        at,
    )?;
    Ok(PropertyDef {
        typ,
        getter,
        setter,
    })
}

/// The property in a row.
fn property_at(
    alloc: Global,
    tables: &Tables<'_>,
    at: RowAt,
) -> Result<Option<PropertyDef>, NoMemory>
    requires { IsTables tables.now }
    ensures { IfOk result (λ found. found ≡ property_at tables.now.world.now.recs at) }
{
    let Some(rows) = tables.rows_at(at.asm) else {
        return Ok(None);
    };
    let rec = rows.scope.rec;
    let Some(row) = rec.property.get(at.row as usize) else {
        return Ok(None);
    };
    let found = property_in(alloc, tables, &rows, at, row)?;
    Ok(Some(found))
}

/// A property. None for one that isn't there.
#[tactic(auto, unfolding(rules::specs::view_rules::Answers::property_query, rules::specs::mark_rules::Places::row_of))]
pub(crate) fn property(
    alloc: Global,
    tables: &Tables<'_>,
    property: u32,
) -> Result<Option<PropertyDef>, NoMemory>
    requires { IsTables tables.now }
    ensures { IfOk result (λ found. found ≡ property_query tables.now.world.now.recs property) }
{
    let item = Item::Prop(PropId(property));
    match row_of(tables.world.recs.as_slice(), item) {
        Ok(Some(at)) => property_at(alloc, tables, at),
        Ok(None) => Ok(None),
        Err(error) => Err(error),
    }
}
