use crate::step::StepKind;
use handoff_data::SeatNo;

/// One atomic step by one seat.
#[derive(Drop)]
pub struct Event {
    /// The seat that makes the step.
    pub seat: SeatNo,
    /// What it does.
    pub step: StepKind,
}
