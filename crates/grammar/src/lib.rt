// The language of operators' scripts: a line of bytes is read as what it asks for, or refused.
#![tactic(auto)]

mod fields;
mod reading;

pub use reading::{Line, Load, read};
