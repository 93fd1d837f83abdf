ghost use Rattle.std.specs.Prelude.{◌≡◌};
ghost use Rattle.pr_words.specs.Kinds.{kind_at, kind_code};

use crate::Nexus;

/// The types of a persistent reservation (SPC-4).
#[derive(Clone, Copy, Debug, PartialEq, Eq)]
pub enum Kind {
    /// Write Exclusive, 1h.
    WriteExclusive,
    /// Exclusive Access, 3h.
    ExclusiveAccess,
    /// Write Exclusive, Registrants Only, 5h.
    WriteRegistrants,
    /// Exclusive Access, Registrants Only, 6h.
    ExclusiveRegistrants,
    /// Write Exclusive, All Registrants, 7h.
    WriteAll,
    /// Exclusive Access, All Registrants, 8h.
    ExclusiveAll,
}

/// A reservation is held by nobody, by one nexus, or by every registered nexus (SPC-4).
#[derive(Clone, Copy, Debug, PartialEq, Eq)]
pub enum Reservation {
    Free,
    OfOne { kind: Kind, holder: Nexus },
    OfAll { kind: Kind },
}

impl Kind {
    /// The type with this number in the TYPE field of a CDB. None where SPC-4 has no such type.
    pub fn of(code: u8) -> Option<Kind>
        ensures { result ≡ kind_at code }
    {
        match code {
            1 => Some(Kind::WriteExclusive),
            3 => Some(Kind::ExclusiveAccess),
            5 => Some(Kind::WriteRegistrants),
            6 => Some(Kind::ExclusiveRegistrants),
            7 => Some(Kind::WriteAll),
            8 => Some(Kind::ExclusiveAll),
            _ => None,
        }
    }

    /// The number of this type in the TYPE field of a CDB.
    pub fn code(self) -> u8
        ensures { result ≡ kind_code self }
    {
        match self {
            Kind::WriteExclusive => 1,
            Kind::ExclusiveAccess => 3,
            Kind::WriteRegistrants => 5,
            Kind::ExclusiveRegistrants => 6,
            Kind::WriteAll => 7,
            Kind::ExclusiveAll => 8,
        }
    }
}
