//! Laws: the contracts of functions with empty bodies.

ghost use Rattle.std.specs.Prelude.{◌≡◌, ◌≢◌, ℕ, List, Option};
ghost use Rattle.std.specs.Bool.{Decides};
ghost use Rattle.il_base.specs.declared.table.TheConstants.{TYPE_SPEC};
ghost use Rattle.il_base.specs.declared.ids.TypeId.{TypeId};
ghost use Rattle.il_base.specs.declared.sig.Sig.{Sig};
ghost use Rattle.il_base.specs.declared.world_model.expr.TypeExpr.{TypeExpr};
ghost use Rattle.il_base.specs.declared.world_model.known.Known.{Known};
ghost use Rattle.il_base.specs.declared.world_model.record.AsmRec.{AsmRec};
ghost use Rattle.il_base.specs.declared.world_model.world.TypeLink.{TypeLink};
ghost use Rattle.il_base.specs.world_model.Exprs.{same_expr, same_exprs};
ghost use Rattle.il_base.specs.world_model.Tokens.{table_of};
ghost use Rattle.il_base.specs.world_model.Worlds.{sig_expr, type_link_at, added_link_at, expr_by};

/// A law: the tests for equality say true exactly where two type expressions, or two lists of them, are equal. It does
/// nothing.
pub fn same_expr_is_equality()
    ensures types { (a : TypeExpr) → (b : TypeExpr) → Decides (same_expr a b) (a ≡ b) }
    ensures lists { (a : List TypeExpr) → (b : List TypeExpr) → Decides (same_exprs a b) (a ≡ b) }
{}

/// A law: what a signature names depends on what tokens of other tables than TypeSpec name. So the links of TypeSpec rows,
/// which are signatures, can be found by links that lack them. It does nothing.
pub fn type_specs_are_not_asked()
    ensures names { (types : ℕ → Option (Known TypeExpr)) → (others : ℕ → Option (Known TypeExpr)) → ((token : ℕ) → table_of token ≢ TYPE_SPEC → types token ≡ others token) → (core : ℕ → Option TypeId) → (added : ℕ → Option TypeId) → (s : Sig) → sig_expr (record { types = types; core = core; added = added }) s ≡ sig_expr (record { types = others; core = core; added = added }) s }
    ensures links { (recs : List AsmRec) → (links : List TypeLink) → (others : List TypeLink) → (a : ℕ) → (targs : List TypeExpr) → (margs : List TypeExpr) → ((token : ℕ) → table_of token ≢ TYPE_SPEC → type_link_at recs links a token ≡ type_link_at recs others a token) → ((token : ℕ) → added_link_at recs links a token ≡ added_link_at recs others a token) → (s : Sig) → expr_by recs links a targs margs s ≡ expr_by recs others a targs margs s }
{}
