// The final theorems on one page (proofs/Claims.antt): there is no code here.
#![tactic(auto)]
