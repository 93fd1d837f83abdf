/// What a nexus is to a persistent reservation (SPC-4, persistent reservations).
#[derive(Clone, Copy, Debug, PartialEq, Eq)]
pub enum Role {
    /// It holds the reservation.
    Holder,
    /// It is registered and doesn't hold the reservation.
    Registered,
    /// It isn't registered.
    Stranger,
}
