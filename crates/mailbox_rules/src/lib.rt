// What the mailbox does on a write, a report and a change, what CCI then says, and what events lead to: definitions and their laws alone. The
// code that meets them is in the crates above (01, The mailbox).
#![tactic(auto)]
