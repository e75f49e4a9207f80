// The demands and their proofs. No code: specs/Demands.antt states them, proofs/ shows them.
#![tactic(auto)]
