use handoff_data::{CpuNo, SeatNo};

/// What a fact says. Its other fields mean what the kind names, and are 0 where it names nothing.
#[derive(Clone, Copy, Debug, PartialEq, Eq, PartialOrd, Ord)]
pub enum Kind {
    /// Change `number` of the task stands at this place.
    Change,
    /// Run `number` of the task stands at this place.
    Run,
    /// A wake from sleep `number` of the task stands at this place.
    Wake,
    /// A listing from sleep `number` of the task stands at this place.
    Listing,
    /// Mask `number` of the task stands at this place.
    Mask,
    /// The processor's departure of epoch `number` stands at this place.
    Offline,
    /// The processor's return of epoch `number` stands at this place.
    Up,
    /// Change `number` put the task on the queue of `cpu`.
    Queued,
    /// By change `number` the task went to sleep on `cpu`.
    Slept,
    /// By change `number` the task was taken off a queue, in the journal of `seat`.
    Left,
    /// By change `number` the task ended on `cpu`.
    Died,
    /// A listing from sleep `number` of the task to `cpu` stands at this place.
    ListedTo,
    /// The task that was listed to `cpu` after change `number` was queued by an entry at this place.
    Taken,
    /// Run `number` of the task is a pick on `cpu`, which stands at this place.
    Picked,
    /// Run `number` of the task is a finish.
    Finished,
    /// The task stood under its mask `number`.
    Stood,
    /// A change of the task stands at this place. The kind names no number, so such facts of one journal are
    /// in the order of its entries.
    ChangeIn,
    /// A run entry of the task stands at this place, likewise.
    RunIn,
    /// A departure or a return of a processor stands at this place, likewise, and the kind names no subject.
    TurnIn,
    /// A listing to the processor in its epoch `number` stands at this place.
    Due,
    /// Mask `number` of the task has `cpu`. Only `members_of` tells such facts.
    Member,
}

/// What an entry tells.
#[derive(Clone, Copy, Debug, PartialEq, Eq, PartialOrd, Ord)]
pub struct Fact {
    pub kind: Kind,
    /// The task or the processor that it is about.
    pub subject: u32,
    pub number: u64,
    pub cpu: CpuNo,
    pub seat: SeatNo,
    pub index: u64,
}
