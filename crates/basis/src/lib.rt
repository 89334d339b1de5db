// The words that every contract uses. They are definitions and laws alone: specs/ has them.
#![tactic(auto)]
