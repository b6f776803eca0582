//! The library for C: exports in modules. `include/aig.h` says to C what each takes and gives.
//!
//! No call keeps anything, and none has a `requires`: whatever C passes is answered, as long as each slice is a pointer and the length
//! of what it points to. A status is a number, so that C can be told it; `status` says which.
#![tactic(auto)]

mod buffer;
mod checked_printing;
mod checks;
mod edits;
mod fair;
mod goals;
mod mapping;
mod messages;
mod numbers;
mod pair_checks;
mod pairs;
mod printing;
mod status;
mod steps;
mod witnesses;
