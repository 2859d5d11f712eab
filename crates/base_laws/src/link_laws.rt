//! Laws: the links of all type tokens of several assemblies tell what each token and each signature names. `link_rules`
//! says what they name.

pub mod laws;
