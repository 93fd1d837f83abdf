/// Why no more connections are taken.
#[derive(Clone, Copy, Debug, PartialEq, Eq)]
pub(crate) enum Stop {
    /// The door has failed.
    Door,
    /// A session found that the gate gives no more turns.
    Spent(u64),
}
