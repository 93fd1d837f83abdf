ghost use Rattle.std.specs.Prelude.{◌≡◌, ◌<◌, length, slice_get, Some};
ghost use Rattle.pr_grammar.specs.Standings.{Standing, kind_of, holder_of, is_holder_in, IsAscending};

use pr_words::{Key, Kind, Nexus};

/// What the replies of PERSISTENT RESERVE IN tell of: the registrations, the reservation, the generation and the
/// preserve flag (SPC-4).
pub trait Registrants {
    /// What contracts see of the value.
    ghost standing: { Self → Standing };

    /// The number of registrations.
    fn count(&self) -> usize
        ensures count { result ≡ length (standing self.now).pairs }
        ensures order { IsAscending (standing self.now).pairs };

    /// The registration in this place from 0, by ascending nexus.
    fn at(&self, i: usize) -> (Nexus, Key)
        requires { i < length (standing self.now).pairs }
        ensures { slice_get (standing self.now).pairs i ≡ Some (record { nexus = result.0; key = result.1 }) };

    /// PRGENERATION.
    fn generation(&self) -> u32
        ensures { result ≡ (standing self.now).generation };

    /// The type of the reservation. None where none is held.
    fn kind(&self) -> Option<Kind>
        ensures { result ≡ kind_of (standing self.now).reservation };

    /// The one nexus that holds the reservation. None where none is held, or every registrant holds it.
    fn holder(&self) -> Option<Nexus>
        ensures { result ≡ holder_of (standing self.now).reservation };

    /// Whether the nexus holds the reservation, by itself or with all registrants.
    fn is_holder(&self, nexus: Nexus) -> bool
        ensures { result ≡ is_holder_in (standing self.now).reservation (standing self.now).pairs nexus };

    /// The APTPL bit of the last accepted registration.
    fn preserve(&self) -> bool
        ensures { result ≡ (standing self.now).preserve };
}
