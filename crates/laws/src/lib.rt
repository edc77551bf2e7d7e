// No code: proofs/ holds what follows from the definitions of the crate format.
#![tactic(auto)]
