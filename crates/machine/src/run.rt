// What a run reports. The run itself stands in the crate `run`; its definition is this crate's `specs/Run.antt`.
use faults::Fault;

// How it ended (done, or the fault that it stopped with), the steps taken, and the position: the stopping word's, or the length when done.
#[derive(Clone, Copy)]
pub struct Ran {
    pub end: Result<(), Fault>,
    pub steps: u64,
    pub position: usize,
}
