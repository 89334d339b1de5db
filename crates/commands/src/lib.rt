// The commands of the mailbox: the table of their codes, and CONTROL taken apart (000 section 3.3; 002, Table A-1).
#![tactic(auto)]

pub mod control;
pub mod table;
