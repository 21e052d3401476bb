// Theorems about the definitions stand in specs/. This crate has no code.
#![tactic(auto)]
