#![tactic(auto)]

// Theorems about the definitions that the calls are proved against: specs/ has what they say, proofs/ proves them, and there is no code.
