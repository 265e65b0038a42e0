//! Whether a job that is installed is alone in flight.

/// Whether another job is in flight when one is installed. Where it is the last, the erases that are done by then leave the list of those pending. None leaves beside another job,
/// which may have begun with it: the list of a task's erases stays what it was when the task was made.
#[derive(Clone, Copy, Debug, PartialEq, Eq)]
pub enum Company {
    /// No other job is in flight.
    Last,
    /// Another one is.
    Beside,
}
