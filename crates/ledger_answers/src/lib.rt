// The numbers of the ledger's answers: those of calls on a sheet, a replay, a season and a receive.

#![tactic(auto)]

pub mod ledgers;
pub mod replays;
pub mod seasons;
pub mod streams;
