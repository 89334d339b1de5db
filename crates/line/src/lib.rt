// Demand 3, both ends over a line: definitions and theorems, without code. The crate `clean` runs a clean line.
#![tactic(auto)]
