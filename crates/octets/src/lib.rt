// The bytes of an input, read until as many have come as there is room for. The programs read with it.
#![tactic(auto)]

mod reading;

pub use reading::read_full;
