// What each call of the ledger changes in the bytes of a sheet (document 01, "The ledger sheet").

#![tactic(auto)]

pub mod desks;
pub mod rows;
pub mod ticks;
