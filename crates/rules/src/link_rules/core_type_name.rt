use il_base::Text;

/// The name of a type of the core library.
#[derive(Drop)]
pub struct CoreTypeName {
    pub namespace: Text,
    pub name: Text,
}
