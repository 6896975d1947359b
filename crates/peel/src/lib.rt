#![tactic(auto)]

// The theory of rebuilding lost packets by parity checks ("peeling"): specs/ has its words, proofs/ its laws, and there is no code.
// proofs/Theorem.antt has what holds of every receiver that keeps to the moves of specs/Peel.antt and has come to rest.
