//! The state of a call.

/// What a call does next.
#[derive(Clone, Copy, PartialEq, Eq, Debug)]
pub enum CallState {
    /// It was made, and has not reached its object's queue yet.
    Sent,
    /// It stands in its object's queue, and runs only once it has become active.
    Queued,
    /// It is its group's active process. A maker of a synchronous call waits so for the result of the call of this number.
    Active(Option<u16>),
    /// It waits for the call of this number, which it made inside its own group and which was active in its place at once.
    Calling(u16),
    /// It returned, or a reply came.
    Ended,
    /// An outside has taken it.
    Outside,
}
