#![tactic(auto)]
// Demand 3 about the compiled calls on lent memory: specs/Theorem states it, proofs/ proves it. There is no code.
