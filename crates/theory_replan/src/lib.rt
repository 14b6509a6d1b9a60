// Specs alone: what a plan made afresh during the act is, when a choice of layers can still be
// fetched, and that a standing plan goes on.

#![tactic(auto)]
