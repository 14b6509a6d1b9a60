// Every public call of the libraries for callers in C or Rust: numbers and slices alone, a slice as
// a pointer and a length. Each answers one 64-bit number, the result, which is below 2^32, or 2^32
// and the refusal's number more; whatever else it hands over stands in lent slices, which a refusal
// leaves as they are. include/film_planner.h says what each call needs and answers.
#![tactic(auto)]

mod asks;
mod by_file;
mod files;
mod lists;
mod meters;
mod plans;
mod texts;
mod version;
