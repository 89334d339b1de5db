// Document 01's table P1 to P12 under one statement, over the definitions that the contracts cite: definitions and a law alone
// (01, Bench examples).
#![tactic(auto)]
