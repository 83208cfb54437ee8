// The author's grammar is definitions alone (specs/), with their uniqueness and their cards (proofs/): there is no code here.
#![tactic(auto)]
