use handoff_data::SeatNo;

/// Of the listings in one waker's journal that the journal of `seat` has queued so far, the last, at `index`.
#[derive(Clone, Copy, Debug, PartialEq, Eq)]
pub struct Mark {
    pub seat: SeatNo,
    pub index: u64,
}
