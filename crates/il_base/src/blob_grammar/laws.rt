ghost use Rattle.std.specs.Prelude.{◌↔◌, ◌≡◌, ◌≤◌, ◌<◌, ◌++◌, ℕ, List, length, take, Option, Some};
ghost use Rattle.il_base.specs.Bytes.{compressed_at};
ghost use Rattle.il_base.specs.blob_grammar.Numbers.{IsNumber, shortest};
ghost use Rattle.il_base.specs.blob_grammar.Signatures.{levels, IsType, IsMethod, IsProperty, IsField, AreLocals, IsInstance, type_bytes, method_bytes, property_bytes, field_bytes, locals_bytes, instance_bytes};
ghost use Rattle.il_base.specs.blob_grammar.Reading.{type_of_blob, method_of_blob, property_of_blob, field_of_blob, locals_of_blob, instance_of_blob};
ghost use Rattle.il_base.specs.blob_grammar.Laws.{AreBytes, IsSpelled, Reads, Writes};
ghost use Rattle.il_base.specs.blob_grammar.Values.{FitsType, FitRow, FitsMethod, FitsProperty};
ghost use Rattle.il_base.specs.declared.sig.Sig.{Sig};
ghost use Rattle.il_base.specs.declared.sig.MethodSig.{MethodSig};

/// Each spelling of a number is read, whatever follows it; what is read is spelled so; the written spelling is one of
/// the number's, and none is shorter (II.23.2).
pub fn numbers()
    ensures read { (n : ℕ) (bytes rest : List ℕ) → IsNumber n bytes → compressed_at (bytes ++ rest) ≡ Some (n, length bytes) }
    ensures found { (n size : ℕ) (bytes : List ℕ) → AreBytes bytes → compressed_at bytes ≡ Some (n, size) → IsNumber n (take size bytes) }
    ensures written { (n : ℕ) → n < 536870912 → IsNumber n (shortest n) }
    ensures least { (n : ℕ) (bytes : List ℕ) → IsNumber n bytes → length (shortest n) ≤ length bytes }
{}

/// Types (II.23.2.12, II.23.2.14).
pub fn types()
    ensures read { Reads (IsType levels) type_of_blob }
    ensures written { Writes (IsType levels) type_of_blob type_bytes }
{}

/// Method signatures (II.23.2.1 to II.23.2.3).
pub fn methods()
    ensures read { Reads IsMethod method_of_blob }
    ensures written { Writes IsMethod method_of_blob method_bytes }
{}

/// Property signatures (II.23.2.5).
pub fn properties()
    ensures read { Reads IsProperty property_of_blob }
    ensures written { Writes IsProperty property_of_blob property_bytes }
{}

/// Field signatures (II.23.2.4).
pub fn fields()
    ensures read { Reads IsField field_of_blob }
    ensures written { Writes IsField field_of_blob field_bytes }
{}

/// The signatures of locals (II.23.2.6).
pub fn locals()
    ensures read { Reads AreLocals locals_of_blob }
    ensures written { Writes AreLocals locals_of_blob locals_bytes }
{}

/// The type arguments of method instances (II.23.2.15).
pub fn instances()
    ensures read { Reads IsInstance instance_of_blob }
    ensures written { Writes IsInstance instance_of_blob instance_bytes }
{}

/// A value has a spelling exactly where it fits: its numbers are below 2^29, its tokens are of TypeDef, TypeRef and
/// TypeSpec, its primitives are those of signatures, and at most 64 constructs that hold a type stand open.
pub fn values()
    ensures types { (s : Sig) → FitsType levels s ↔ IsSpelled (IsType levels) s }
    ensures methods { (m : MethodSig) → FitsMethod m ↔ IsSpelled IsMethod m }
    ensures properties { (m : MethodSig) → FitsProperty m ↔ IsSpelled IsProperty m }
    ensures fields { (s : Sig) → FitsType levels s ↔ IsSpelled IsField s }
    ensures locals { (ss : List Sig) → FitRow ss ↔ IsSpelled AreLocals ss }
    ensures instances { (ss : List Sig) → FitRow ss ↔ IsSpelled IsInstance ss }
{}
