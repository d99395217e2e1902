// Document 01's worked examples P1 to P10, as one table of checks with one claim. This crate has no code.

#![tactic(auto)]
