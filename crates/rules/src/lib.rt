// The rules of the twenty-two calls, and what holds of every list of steps: definitions and proofs only.
#![tactic(auto)]
