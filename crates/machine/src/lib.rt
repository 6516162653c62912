// The machine: one step (`step`), and what a run reports (`run`). What one instruction asks for stands in the crate `effect`.
#![tactic(auto)]

pub mod run;
pub mod step;
