// The longest quiet of a tree: most quiet frames between two neighbouring strikes.
#![tactic(auto)]

mod longest;

pub use longest::longest_quiet;
