ghost use Rattle.std.specs.Prelude.{◌≡◌, IsTrue, length};
ghost use Rattle.std.specs.List.{list_all};
ghost use Rattle.il_base.specs.core_table.Laws.{are_types_once, has_members_once, is_named, ends_at_object, is_special_right, is_slot_right, is_exception_right, is_value_right, runs_meet, named_tokens};
ghost use Rattle.il_base.specs.core_table.Record.{core_record};

use crate::core_table::types::{METHOD_COUNT, TYPE_COUNT, TYPES};

/// The core record's tables: as many rows as the core table has types, fields and methods; each type's runs begin where
/// those of the type before it end, and the last runs end past the last rows (II.22.37).
pub fn rows()
    ensures types { length core_record.type_def ≡ TYPE_COUNT }
    ensures fields { length core_record.field ≡ 1 }
    ensures methods { length core_record.method_def ≡ METHOD_COUNT }
    ensures runs { IsTrue (runs_meet 1 1 core_record.type_def) }
{}

/// Each type and each member stands once (II.22.37, II.22.26).
pub fn once()
    ensures types { IsTrue (are_types_once TYPES) }
    ensures members { IsTrue (list_all has_members_once TYPES) }
{}

/// Bases: each class but Object and `<Module>` has a base, and its bases end at Object; a type whose name ends in
/// `Exception`, and no other, is Exception or derives from it; a type is a value type exactly where it is sealed,
/// String and the static classes aside (II.10.1).
pub fn bases()
    ensures object { IsTrue (list_all ends_at_object TYPES) }
    ensures exceptions { IsTrue (list_all is_exception_right TYPES) }
    ensures values { IsTrue (list_all is_value_right TYPES) }
    ensures tokens { IsTrue (list_all is_named named_tokens) }
{}

/// Flags of methods: specialname where the name is that of an accessor, of an operator or of a constructor, rtspecialname
/// for constructors (II.23.1.10); newslot exactly where the method is virtual and no base has its slot (II.10.3.2).
pub fn flags()
    ensures special { IsTrue (list_all is_special_right TYPES) }
    ensures slots { IsTrue (list_all is_slot_right TYPES) }
{}
