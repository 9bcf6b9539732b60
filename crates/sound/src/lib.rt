// Whether a sound pool stands in some node words, with a root, a length and a chain beside them. What these say and
// what stands in the words is for the test to find out; the caller sees to it that they are whole nodes, at most 1,023.
// False exactly where there is no such pool.
#![tactic(auto)]

mod edge;
mod judge;
mod links;
mod met;
mod visit;

pub use judge::sound;
