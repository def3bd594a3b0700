// The words of a table, whatever they are: its fields, the spans that nodes and branches have, and its index.
#![tactic(auto)]

pub mod fields;
pub mod index;
pub mod lookup;
pub mod spans;
