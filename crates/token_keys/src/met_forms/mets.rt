ghost use Rattle.std.specs.Prelude.{◌≡◌, ◌++◌, ◌∷◌, [], map, OnOk};
ghost use Rattle.rules.specs.merge_rules.Order.{met_type, met_sig, met_method, met_field, met_instance, met_locals};
ghost use Rattle.token_keys.specs.key_codes.Keys.{type_key, method_key, field_key, instance_key};
ghost use Rattle.token_keys.specs.met_forms.Told.{met_told};

use crate::key_codes::keys::{FieldKey, InstanceKey, MethodKey, TypeKey};
use crate::met_forms::met::Met;
use il_base::{NoMemory, Seq, Sig};
use std::alloc::Global;
use std::marker::Model;

/// What is met, in order. Contracts see it as the rules of merging have it.
#[derive(Drop)]
pub struct Mets {
    listed: Vec<Met>,
}

impl Model for Mets {
    ghost use Rattle.std.specs.Prelude.{List, map};
    ghost use Rattle.std.specs.Coded.{codes};
    ghost use Rattle.il_base.specs.contracts.sig.Sig as sig;
    ghost use Rattle.il_base.specs.contracts.world_model.expr.TypeExpr as expr;
    ghost use Rattle.rules.specs.merge_rules.Order as order;
    ghost use Rattle.token_keys.specs.met_forms.Told.{met_told};

    ghost Value = { List order.Met };

    ghost coded = { Prim.hlevel (codes, sig.the_row.coded, expr.the_row.coded) };

    ghost view = { λ m. map met_told m.listed.items };
}

impl Mets {
    /// Nothing. It takes no memory.
    pub fn new(alloc: Global) -> Mets
        ensures { result ≡ [] }
    {
        Mets {
            listed: Vec::new(alloc),
        }
    }

    /// What is met, in order.
    pub fn as_slice(&self) -> &[Met]
        ensures { map met_told result.now ≡ self.now }
    {
        self.listed.as_slice()
    }

    /// Puts one at the end.
    #[tactic(auto, using(crate::proofs::lemmas::met_forms::Lists::one_more))]
    pub fn push(&mut self, one: Met) -> Result<(), NoMemory>
        ensures { OnOk result (self.new ≡ self.old ++ met_told one ∷ []) }
    {
        self.listed.push(one)?;
        Ok(())
    }

    /// Puts a type by a token at the end.
    pub fn push_type(&mut self, key: TypeKey) -> Result<(), NoMemory>
        ensures { OnOk result (self.new ≡ self.old ++ met_type (type_key key) ∷ []) }
    {
        self.push(Met::Type(key))
    }

    /// Puts a type in a signature at the end.
    pub fn push_sig(&mut self, sig: Sig) -> Result<(), NoMemory>
        ensures { OnOk result (self.new ≡ self.old ++ met_sig sig ∷ []) }
    {
        self.push(Met::Sig(sig))
    }

    /// Puts a method at the end.
    pub fn push_method(&mut self, key: MethodKey) -> Result<(), NoMemory>
        ensures { OnOk result (self.new ≡ self.old ++ met_method (method_key key) ∷ []) }
    {
        self.push(Met::Method(key))
    }

    /// Puts a field at the end.
    pub fn push_field(&mut self, key: FieldKey) -> Result<(), NoMemory>
        ensures { OnOk result (self.new ≡ self.old ++ met_field (field_key key) ∷ []) }
    {
        self.push(Met::Field(key))
    }

    /// Puts a method with arguments at the end.
    pub fn push_instance(&mut self, key: InstanceKey) -> Result<(), NoMemory>
        ensures { OnOk result (self.new ≡ self.old ++ met_instance (instance_key key) ∷ []) }
    {
        self.push(Met::Instance(key))
    }

    /// Puts locals at the end.
    pub fn push_locals(&mut self, sigs: Seq<Sig>) -> Result<(), NoMemory>
        ensures { OnOk result (self.new ≡ self.old ++ met_locals sigs ∷ []) }
    {
        self.push(Met::Locals(sigs))
    }
}
