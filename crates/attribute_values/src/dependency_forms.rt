//! Dependencies as code keeps them: what a custom attribute `DynamicDependencyAttribute` names, and lists of it. Contracts see
//! them as `rules/specs/mark_rules/Annotations` has them (`specs/dependency_forms/Told`).

pub mod dependencies;
pub mod dependency;
