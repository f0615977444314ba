// The definitions of document 01 and the theorems about them stand in specs/ and proofs/. This crate has no code.
#![tactic(auto)]
