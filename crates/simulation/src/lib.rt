// That the code's run is the plain machine's: definitions and proofs alone, in specs/ and proofs/.
#![tactic(auto)]
