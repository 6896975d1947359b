#![tactic(auto)]

// What a sender sends (request 4): proofs/Theorem.antt has it, over the calls of `sender` and the definitions of `calls`. There is no code.
