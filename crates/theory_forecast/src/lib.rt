// Specs alone: what a plan over a meter's forecast asks of the link, request 3 of document 02.

#![tactic(auto)]
