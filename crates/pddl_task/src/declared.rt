//! What a task declares besides its actions: types, objects, predicates and functions, each numbered from 0 in the
//! order of their lists.
use sexpr::Text;
use sqlite_items::Items;

/// A type, with the number of the type above it. `object` has the number 0 and is above itself.
#[derive(Debug, Drop)]
pub struct TypeName {
    pub name: Text,
    pub parent: u32,
}

/// An object with its type.
#[derive(Debug, Drop)]
pub struct Object {
    pub name: Text,
    pub of: u32,
}

/// A predicate or a function; for each parameter `params` has the types that it allows.
#[derive(Debug, Drop)]
pub struct Signature {
    pub name: Text,
    pub params: Items<Items<u32>>,
}
