//! Copies of values: each is equal to what it was made from.

ghost use Rattle.std.specs.Prelude.{◌≡◌, IfOk};
ghost use Rattle.il_base.specs.declared.cil_values.value.Value.TheVariants as value;

use crate::cil_values::path::{Path, Root};
use crate::cil_values::value::Value;
use crate::world_model::TypeExpr;
use crate::{Boxed, NoMemory, Seq};
use std::alloc::Global;

impl Root {
    /// A copy.
    pub fn copy(&self, alloc: Global) -> Result<Root, NoMemory>
        ensures { IfOk result (λ r. r ≡ self.now) }
    {
        match self {
            Root::Arg(frame, at) => Ok(Root::Arg(*frame, *at)),
            Root::Local(frame, at) => Ok(Root::Local(*frame, *at)),
            Root::Boxed(object) => Ok(Root::Boxed(*object)),
            Root::Element(array, at) => Ok(Root::Element(*array, *at)),
            Root::Field(object, field) => Ok(Root::Field(*object, *field)),
            Root::Static(field, owner) => {
                let owner = owner.get().copy(alloc)?;
                let owner = Boxed::new(alloc, owner)?;
                Ok(Root::Static(*field, owner))
            }
        }
    }
}

impl Path {
    /// A copy.
    pub fn copy(&self, alloc: Global) -> Result<Path, NoMemory>
        ensures { IfOk result (λ p. p ≡ self.now) }
    {
        let root = self.root.copy(alloc)?;
        let steps = Seq::from_slice(alloc, self.steps.as_slice())?;
        let of = self.of.copy(alloc)?;
        Ok(Path { root, steps, of })
    }
}

impl Value {
    /// A managed pointer.
    pub fn pointer(alloc: Global, path: Path) -> Result<Value, NoMemory>
        ensures { IfOk result (λ v. v ≡ value.Pointer path) }
    {
        let path = Boxed::new(alloc, path)?;
        Ok(Value::Pointer(path))
    }

    /// An instance of a value type: the type, and its cells.
    pub fn structure(alloc: Global, of: TypeExpr, cells: Seq<Value>) -> Result<Value, NoMemory>
        ensures { IfOk result (λ v. v ≡ value.Struct of cells) }
    {
        let of = Boxed::new(alloc, of)?;
        let cells = Boxed::new(alloc, cells)?;
        Ok(Value::Struct(of, cells))
    }

    /// A type's handle.
    pub fn handle(alloc: Global, of: TypeExpr) -> Result<Value, NoMemory>
        ensures { IfOk result (λ v. v ≡ value.Handle of) }
    {
        let of = Boxed::new(alloc, of)?;
        Ok(Value::Handle(of))
    }

    /// A copy. Copies of references name the same objects, copies of structs have cells of their own.
    #[cycle(copying)]
    pub fn copy(&self, alloc: Global) -> Result<Value, NoMemory>
        ensures { IfOk result (λ v. v ≡ self.now) }
    {
        match self {
            Value::Null => Ok(Value::Null),
            Value::I4(n) => Ok(Value::I4(*n)),
            Value::I8(n) => Ok(Value::I8(*n)),
            Value::Native(n) => Ok(Value::Native(*n)),
            Value::Object(at) => Ok(Value::Object(*at)),
            Value::Pointer(path) => {
                let path = path.get().copy(alloc)?;
                Value::pointer(alloc, path)
            }
            Value::Struct(of, cells) => {
                let of = of.get().copy(alloc)?;
                let cells = Value::copy_all(alloc, cells.get().as_slice())?;
                Value::structure(alloc, of, cells)
            }
            Value::Handle(of) => {
                let of = of.get().copy(alloc)?;
                Value::handle(alloc, of)
            }
            Value::FieldHandle(field) => Ok(Value::FieldHandle(*field)),
        }
    }

    /// Copies of some values, in their order.
    #[cycle(copying)]
    pub fn copy_all(alloc: Global, values: &[Value]) -> Result<Seq<Value>, NoMemory>
        ensures { IfOk result (λ vs. vs ≡ values.now) }
    {
        let mut copies = Seq::new(alloc);
        for one in values {
            let copy = one.copy(alloc)?;
            copies.push(copy)?;
        }
        Ok(copies)
    }
}
