//! Laws of what edits make of a circuit: what the machine of a written file shows of the machine of the file that was read. Laws of fair
//! runs, fair lassos and rounds.
#![tactic(auto)]

mod fair;
mod fairness;
mod laws;
mod plain;
mod reduction;

pub use fair::{
    fair_runs_are_lassos, fair_runs_come_back, fair_runs_end_rounds, lassos_go_on,
    live_circuits_show_lassos, loops_start_early, rounds_circuits_show_rounds,
    small_live_circuits_fit, small_rounds_circuits_fit, written_live_circuits_show_lassos,
    written_rounds_circuits_show_rounds,
};
pub use fairness::Fairness;
pub use laws::{
    always_bad_runs_are_runs, changed_circuits_keep_witnesses, cones_show_their_output,
    merged_witnesses_are_pairs, outputs_become_bads, properties_show_their_bad,
    shown_runs_are_machine_runs, unrolled_witnesses_are_runs, written_circuits_have_outputs,
    written_circuits_have_witnesses,
};
pub use plain::{changed_circuits_are_plain, reductions_are_writable};
pub use reduction::{
    asked_circuits_are_circuits, hashed_cuts_are_reductions, reductions_are_alone,
    runs_keep_witnesses,
};
