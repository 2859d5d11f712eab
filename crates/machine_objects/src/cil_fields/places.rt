//! Places of instance fields.

ghost use Rattle.std.specs.Prelude.{◌≡◌, List, IfOk};
ghost use Rattle.il_base.specs.declared.cil_values.value.Value.{Value};
ghost use Rattle.il_base.specs.declared.cil_values.object.Obj.TheVariants as objects;
ghost use Rattle.il_base.specs.declared.cil_values.path.Path.{Path};
ghost use Rattle.rules.specs.step_rules.Next.{Next};
ghost use Rattle.rules.specs.step_rules.Places.{at_place};
ghost use Rattle.std.specs.Option.{option_map};
ghost use Rattle.il_base.specs.declared.cil_values.layout.Layout.{Layout as CellLayout};
ghost use Rattle.il_base.specs.declared.cil_values.layout.Cell.TheVariants as cell;
ghost use Rattle.rules.specs.step_rules.Fields.{layout_of as found_layout, field_of_object, field_of_pointer, field_place, into_struct, object_field};
ghost use Rattle.machine_words.specs.cil_closing.Callees.{accessed_by};
ghost use Rattle.machine_numbers.specs.cil_pointers.Reaching.{reached_by, with_stack};
ghost use Rattle.machine_objects.specs.cil_fields.Placing.{cell_by, placed_by};

use crate::cil_fields::cells::{StructCell, layout_of, struct_cell};
use crate::cil_fields::placed::Placed;
use il_base::cil_values::{Layout, Obj, Path, Root, State, Value};
use il_base::world_model::TypeExpr;
use il_base::{FieldId, NoMemory, Seq};
use machine_numbers::cil_pointers::{Reached, ended_at, value_at};
use machine_words::cil_closing::Accessed;
use machine_words::cil_objects::object_is_a;
use machine_words::cil_queries::Answers;
use std::alloc::Global;

/// The closed type of a field among some cells, by the field's place in the world.
fn type_among(alloc: Global, field: u32, cells: &[Layout]) -> Result<Option<TypeExpr>, NoMemory>
    ensures { IfOk result (λ ty. ty ≡ option_map (λ (l : CellLayout). l.typ) (found_layout (cell.Field field) cells.now)) }
{
    match layout_of(field, cells) {
        None => Ok(None),
        Some(l) => {
            let ty = l.typ.copy(alloc)?;
            Ok(Some(ty))
        }
    }
}

/// The closed type of a field of an instance of a class, by the field's place in the world.
fn field_type<Q: Answers>(
    alloc: Global,
    q: &Q,
    of: &TypeExpr,
    field: u32,
) -> Result<Option<TypeExpr>, NoMemory>
    ensures { IfOk result (λ ty. ty ≡ option_map (λ (l : CellLayout). l.typ) (found_layout (cell.Field field) ((Q.queries q.now).cells of.now))) }
{
    match q.kept_cells(of) {
        Some(layouts) => type_among(alloc, field, layouts),
        None => {
            let layouts = q.cells(alloc, of)?;
            let ty = type_among(alloc, field, layouts.as_slice())?;
            Ok(ty)
        }
    }
}

/// A field of an instance of a class, whose closed type this is.
fn instance_field<Q: Answers>(
    alloc: Global,
    q: &Q,
    a: &Accessed,
    at: u32,
    of: &TypeExpr,
) -> Result<Option<Path>, NoMemory>
    ensures { IfOk result (λ p. (cells : List Value) → p ≡ object_field (Q.queries q.now) (accessed_by a.now) at (objects.Instance of.now cells)) }
{
    let found = field_type(alloc, q, of, a.id)?;
    let Some(of) = found else {
        return Ok(None);
    };
    Ok(Some(Path {
        root: Root::Field(at, FieldId(a.id)),
        steps: Seq::new(alloc),
        of,
    }))
}

/// A field of the struct in a box, whose closed type this is.
fn boxed_field<Q: Answers>(
    alloc: Global,
    q: &Q,
    a: &Accessed,
    at: u32,
    of: &TypeExpr,
) -> Result<Option<Path>, NoMemory>
    ensures { IfOk result (λ p. (v : Value) → p ≡ object_field (Q.queries q.now) (accessed_by a.now) at (objects.Boxed of.now v)) }
{
    let Some(c) = struct_cell(alloc, q, of, a.id)? else {
        return Ok(None);
    };
    let mut steps = Seq::new(alloc);
    steps.push(c.number)?;
    Ok(Some(Path {
        root: Root::Boxed(at),
        steps,
        of: c.typ,
    }))
}

/// The place of a field of an object. None where the object has no such field.
fn object_field<Q: Answers>(
    alloc: Global,
    q: &Q,
    a: &Accessed,
    at: u32,
    o: &Obj,
) -> Result<Option<Path>, NoMemory>
    ensures { IfOk result (λ p. p ≡ object_field (Q.queries q.now) (accessed_by a.now) at o.now) }
{
    match o {
        Obj::Instance { of, cells: _ } => {
            let p = instance_field(alloc, q, a, at, of)?;
            Ok(p)
        }
        Obj::Boxed { of, value: _ } => boxed_field(alloc, q, a, at, of),
        Obj::Array { of: _, cells: _ } => Ok(None),
        Obj::Str(_) => Ok(None),
        Obj::TypeOf(_) => Ok(None),
        Obj::Member(_, _) => Ok(None),
    }
}

fn field_of_object<Q: Answers>(
    alloc: Global,
    q: &Q,
    a: &Accessed,
    at: u32,
    st: &State,
) -> Result<Placed, NoMemory>
    ensures { IfOk result (λ x. (vs : List Value) → (f : Path → Next) → field_of_object (Q.queries q.now) (accessed_by a.now) at (with_stack vs st.now) f ≡ placed_by (Q.queries q.now) x (with_stack vs st.now) f) }
{
    let Some(o) = st.heap.get(at) else {
        return Ok(Placed::Refused);
    };
    if !object_is_a(alloc, q, &a.owner, o)? {
        return Ok(Placed::Refused);
    }
    match object_field(alloc, q, a, at, o)? {
        None => Ok(Placed::Gone),
        Some(p) => Ok(Placed::At(p)),
    }
}

/// A pointer one step further, into a cell of the struct that it leads to.
fn into_struct(alloc: Global, p: &Path, c: StructCell) -> Result<Path, NoMemory>
    ensures { IfOk result (λ path. path ≡ into_struct p.now (cell_by c)) }
{
    let root = p.root.copy(alloc)?;
    let mut steps = Seq::from_slice(alloc, p.steps.as_slice())?;
    steps.push(c.number)?;
    Ok(Path {
        root,
        steps,
        of: c.typ,
    })
}

fn field_of_pointer<Q: Answers>(
    alloc: Global,
    q: &Q,
    a: &Accessed,
    p: &Path,
    st: &State,
) -> Result<Placed, NoMemory>
    ensures { IfOk result (λ x. (vs : List Value) → (f : Path → Next) → field_of_pointer (Q.queries q.now) (accessed_by a.now) p.now (with_stack vs st.now) f ≡ placed_by (Q.queries q.now) x (with_stack vs st.now) f) }
{
    if ended_at(st, p) {
        return Ok(Placed::Gone);
    }
    if !p.of.is_same(&a.owner) {
        return Ok(Placed::Refused);
    }
    let Some(c) = struct_cell(alloc, q, &a.owner, a.id)? else {
        return Ok(Placed::Gone);
    };
    let path = into_struct(alloc, p, c)?;
    Ok(Placed::At(path))
}

/// The place of a field: of an object whose type is a subtype of the owner, or through a pointer whose type is the owner.
#[tactic(auto, unfolding(rules::specs::step_rules::Fields::field_place))]
fn field_place<Q: Answers>(
    alloc: Global,
    q: &Q,
    a: &Accessed,
    r: &Value,
    st: &State,
) -> Result<Placed, NoMemory>
    ensures { IfOk result (λ x. (vs : List Value) → (f : Path → Next) → field_place (Q.queries q.now) (accessed_by a.now) r.now (with_stack vs st.now) f ≡ placed_by (Q.queries q.now) x (with_stack vs st.now) f) }
{
    match r {
        Value::Null => Ok(Placed::Null),
        Value::Object(at) => field_of_object(alloc, q, a, *at, st),
        Value::Pointer(p) => field_of_pointer(alloc, q, a, p.get(), st),
        Value::I4(_) => Ok(Placed::Refused),
        Value::I8(_) => Ok(Placed::Refused),
        Value::Native(_) => Ok(Placed::Refused),
        Value::Struct(_, _) => Ok(Placed::Refused),
        Value::Handle(_) => Ok(Placed::Refused),
        Value::FieldHandle(_) => Ok(Placed::Refused),
    }
}

/// The place of a field and its value.
#[tactic(auto, unfolding(rules::specs::step_rules::Places::at_place))]
pub fn reach_field<Q: Answers>(
    alloc: Global,
    q: &Q,
    a: &Accessed,
    r: &Value,
    st: &State,
) -> Result<Reached, NoMemory>
    ensures { IfOk result (λ x. (vs : List Value) → (f : Path → Value → Next) → field_place (Q.queries q.now) (accessed_by a.now) r.now (with_stack vs st.now) (λ p. at_place (Q.queries q.now) p (with_stack vs st.now) (f p)) ≡ reached_by (Q.queries q.now) x (with_stack vs st.now) f) }
{
    let found = field_place(alloc, q, a, r, st)?;
    match found {
        Placed::Null => Ok(Reached::Null),
        Placed::Gone => Ok(Reached::Gone),
        Placed::Refused => Ok(Reached::Refused),
        Placed::At(p) => match value_at(alloc, q, st, &p)? {
            None => Ok(Reached::Gone),
            Some(v) => Ok(Reached::At(p, v)),
        },
    }
}
