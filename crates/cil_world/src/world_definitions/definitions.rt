//! The definitions of a world.

ghost use Rattle.std.specs.Prelude.{◌≡◌, IfOk};
ghost use Rattle.std.specs.Option.{option_copied};
ghost use Rattle.mark_parts.specs.mark_tables.Assemblies.{IsMarker};
ghost use Rattle.rules.specs.view_rules.Answers.{starts_query, maker_of, encloser_query, queries_of};
ghost use Rattle.rules.specs.view_rules.Methods.{method_query, field_query, head_query};
ghost use Rattle.machine_words.specs.cil_queries.Bodies.{instruction_of};

use crate::world_definitions::fields::Fields;
use crate::world_definitions::types::Types;
use crate::world_methods::methods::Methods;
use il_base::NoMemory;
use il_base::cil_values::{FieldDef, Head, Instruction, Method};
use mark_parts::mark_tables::marker::Marker;
use std::alloc::Global;
use std::marker::Model;

/// The definitions of a world, made once. Contracts see the world, which a link gave. Each look-up is an index into a table
/// and takes no memory.
#[derive(Drop)]
pub struct Definitions<'w> {
    methods: Methods<'w>,
    fields: Fields<'w>,
    types: Types<'w>,
}

impl<'w> Model for Definitions<'w> {
    ghost use Rattle.std.specs.Prelude.{◌≡◌};
    ghost use Rattle.il_base.specs.declared.world_model.world.World.{World};
    ghost use Rattle.il_base.specs.contracts.world_model.world.World as of_world;

    ghost Value = { World };

    ghost coded = { of_world.the_row.coded };

    ghost view = { λ d. d.methods };

    ghost invariant = { λ d. (d.fields ≡ d.methods) × (d.types ≡ d.methods) };
}

impl<'w> Definitions<'w> {
    /// The definitions of a world that a link gave.
    pub fn of(alloc: Global, marker: &Marker<'w>) -> Result<Definitions<'w>, NoMemory>
        requires { IsMarker marker.now }
        ensures { IfOk result (λ d. d ≡ marker.now.tables.world.now) }
    {
        let methods = Methods::of(alloc, marker)?;
        let fields = Fields::of(alloc, marker)?;
        let types = Types::of(alloc, marker)?;
        Ok(Definitions {
            methods,
            fields,
            types,
        })
    }

    /// A method, by its place in the world from 0; None for one that no type's run holds.
    pub fn method(&self, method: u32) -> Option<&Method>
        ensures { option_copied result ≡ method_query self.now.recs method }
    {
        self.methods.method(method)
    }

    /// The instruction of a method's body at an IL offset; None where none begins there, or the method has no body that can
    /// run.
    pub fn instruction(&self, method: u32, at: u32) -> Option<&Instruction>
        ensures { option_copied result ≡ instruction_of (queries_of self.now.recs) method at }
    {
        self.methods.instruction(method, at)
    }

    /// A field, by its place in the world from 0.
    pub fn field(&self, field: u32) -> Option<&FieldDef>
        ensures { option_copied result ≡ field_query self.now.recs field }
    {
        self.fields.field(field)
    }

    /// A type definition, by its place in the world from 0.
    pub fn head(&self, ty: u32) -> Option<Head>
        ensures { result ≡ head_query self.now.recs ty }
    {
        self.types.head(ty)
    }

    /// The initializer of a type (II.10.5.3), both by their places in the world from 0.
    pub fn starts(&self, ty: u32) -> Option<u32>
        ensures { result ≡ starts_query self.now.recs ty }
    {
        self.types.starts(ty)
    }

    /// The constructor by which reflection makes objects of a type definition (II.10.5.1), both by their places in the world from 0.
    pub fn maker(&self, ty: u32) -> Option<u32>
        ensures { result ≡ maker_of self.now.recs ty }
    {
        self.types.maker(ty)
    }

    /// The type definition that another is nested in (II.22.32), both by their places in the world from 0.
    pub fn encloser(&self, ty: u32) -> Option<u32>
        ensures { result ≡ encloser_query self.now.recs ty }
    {
        self.types.encloser(ty)
    }
}
