// Document 01's examples marked P, as one statement: proofs/Examples.
#![tactic(auto)]
