//! What the calls of timers are answered.

/// What a cancel is answered.
#[derive(Clone, Copy, Debug, PartialEq, Eq)]
pub enum Cancel {
    /// The timer was armed, and is cancelled.
    Done,
    /// The timer was fired.
    WasFired,
    /// The timer was cancelled before.
    WasCancelled,
    /// No timer is armed under this ticket: its number is none of a timer, its moment is another than the timer's, or
    /// the timer is not armed yet or was refused.
    Unknown,
}
