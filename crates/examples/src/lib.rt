// Listings worked out by hand with admission's answers, and the rows marked for proof: `specs/` states
// them, `proofs/` computes them; nothing here runs.
#![tactic(auto)]
