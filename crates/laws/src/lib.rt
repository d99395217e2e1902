// Laws that other crates share. This crate has proofs only, no code.

#![tactic(auto)]
