// One lost message: both ends on a line in every millisecond, and the silence limits that make the loss good, without code (docs/HAZARDS.md,
// part 6).
#![tactic(auto)]
