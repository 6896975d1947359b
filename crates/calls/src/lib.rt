#![tactic(auto)]

// The calls of a receiver card as definitions, and the laws of them: no code.
