//! A method whose flow is known.

ghost use Rattle.std.specs.Prelude.{◌≡◌, ◌+◌, ◌-◌, suc, IfOk};
ghost use Rattle.std.specs.Option.{option_copied, option_and_then};
ghost use Rattle.il_base.specs.declared.table.TheConstants.{METHOD_DEF};
ghost use Rattle.il_base.specs.world_model.Tokens.{token_of};
ghost use Rattle.rules.specs.flow_rules.Counts.{one_if};
ghost use Rattle.rules.specs.flow_rules.Moves.{fixed_in, token_in, named_use, named_field};
ghost use Rattle.value_flow.specs.body_graph.Methods.{setting_in};
ghost use Rattle.mark_parts.specs.mark_tables.Assemblies.{all_of};
ghost use Rattle.rules.specs.site_rules.Values.{place_of};
ghost use Rattle.requirements.specs.Bodies.{flowed, IsBody};

use crate::generic_sites::links::{field_named, method_named};
use il_base::world_model::{FieldUse, MethodUse, token_of};
use il_base::{MethodId, NoMemory, Operand, Place, TypeId, table};
use rules::link_rules::RowAt;
use site_kinds::known::Annotated;
use value_flow::Flow;
use value_flow::body_graph::methods::Method;

/// A method whose flow is known.
#[derive(Clone, Copy)]
pub(crate) struct Body<'a, 'w, 'm, 'g> {
    pub(crate) annotated: &'a Annotated<'w>,
    pub(crate) method: &'a Method<'m>,
    pub(crate) flow: &'a Flow<'g>,
    pub(crate) id: MethodId,
    pub(crate) at: RowAt,
    /// The type that it is in.
    pub(crate) owner: Option<TypeId>,
}

fn one_if(test: bool) -> u32
    ensures { result ≡ one_if test }
{
    if test { 1 } else { 0 }
}

/// How many arguments and locals a method has.
fn fixed_in(m: &Method<'_>) -> Result<u32, NoMemory>
    ensures { IfOk result (λ n. n ≡ fixed_in (setting_in m.now)) }
{
    let Ok(params) = u32::try_from(m.own.params) else {
        return Err(NoMemory);
    };
    let Ok(locals) = u32::try_from(m.locals) else {
        return Err(NoMemory);
    };
    let Some(args) = one_if(m.own.this).checked_add(params) else {
        return Err(NoMemory);
    };
    match args.checked_add(locals) {
        None => Err(NoMemory),
        Some(fixed) => Ok(fixed),
    }
}

/// The slot of the n-th value from the top of a stack of this depth, counted from 1.
pub(crate) fn slot_from_top(m: &Method<'_>, depth: u32, n: u32) -> Result<u32, NoMemory>
    ensures { IfOk result (λ slot. slot ≡ fixed_in (setting_in m.now) + depth - n) }
{
    let fixed = fixed_in(m)?;
    let Some(end) = fixed.checked_add(depth) else {
        return Err(NoMemory);
    };
    Ok(end.saturating_sub(n))
}

fn token_in(operand: &Operand) -> Option<u32>
    ensures { result ≡ token_in operand.now }
{
    match operand {
        Operand::None => None,
        Operand::Number(_) => None,
        Operand::Slot(_) => None,
        Operand::Token(token) => Some(*token),
        Operand::Target(_) => None,
        Operand::Targets(_) => None,
    }
}

impl<'w> Body<'_, 'w, '_, '_> {
    /// The instruction at an IL offset.
    pub(crate) fn place(&self, offset: u32) -> Result<Place, NoMemory>
        ensures { IfOk result (λ place. place ≡ place_of (flowed self.now) offset) }
    {
        let token = token_of(table::METHOD_DEF, self.at.row as usize)?;
        Ok(Place {
            asm: self.at.asm,
            token,
            offset,
        })
    }

    /// The method that the operand of a call names.
    pub(crate) fn named_use(&self, operand: &Operand) -> Option<&'w MethodUse>
        requires { IsBody self.now }
        ensures { option_copied result ≡ named_use (all_of self.now.annotated.now.marker.now) (setting_in self.now.method.now) operand.now }
    {
        let annotated = self.annotated;
        let marker = annotated.marker;
        let method = self.method;
        match token_in(operand) {
            None => None,
            Some(token) => method_named(marker.tables.world, method.asm, method.rec, token),
        }
    }

    /// The field that the operand of an instruction names.
    pub(crate) fn named_field(&self, operand: &Operand) -> Option<&'w FieldUse>
        requires { IsBody self.now }
        ensures { option_copied result ≡ named_field (all_of self.now.annotated.now.marker.now) (setting_in self.now.method.now) operand.now }
    {
        let annotated = self.annotated;
        let marker = annotated.marker;
        let method = self.method;
        match token_in(operand) {
            None => None,
            Some(token) => field_named(marker.tables.world, method.asm, method.rec, token),
        }
    }
}
