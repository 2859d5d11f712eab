ghost use Rattle.trim_laws.specs.merged_modules.Laws.{ModulesStay};

/// A law: a kept type that isn't `<Module>` of its input isn't that of the output. It does nothing.
pub fn modules_stay()
    ensures { ModulesStay }
{}
