// Lookups in the book that a sheet holds.

#![tactic(auto)]

pub mod lookup;
