// Specs alone: document 01's worked rows marked †, as one proved table, and rows of uneven film.

#![tactic(auto)]
