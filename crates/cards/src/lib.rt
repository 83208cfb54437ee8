// Worked examples of the format, held to the definitions by one computation over a table: the table is in specs/, the proof in proofs/.
#![tactic(auto)]
