// Specs alone: what a wrong slot of the forecast can cost, request 10 of document 02.

#![tactic(auto)]
