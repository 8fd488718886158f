//! Types in which each has one type above it, and a fast answer to 'is this type that one or below it'. The root is
//! mostly its own parent. Texts may also have circles, and the answers are exact there too. Begin with `Hierarchy`.
#![tactic(auto)]

mod hierarchy;
pub mod laws;
mod settling;
mod walking;

pub use hierarchy::Hierarchy;

#[cfg(test)]
mod tests;
