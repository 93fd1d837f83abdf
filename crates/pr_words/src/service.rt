ghost use Rattle.std.specs.Prelude.{◌≡◌, IfSome};
ghost use Rattle.pr_words.specs.Services.{in_service_at, in_service_code, out_service_at, out_service_code};

/// The service actions of PERSISTENT RESERVE IN (SPC-4).
#[derive(Clone, Copy, Debug, PartialEq, Eq)]
pub enum InService {
    /// READ KEYS, 00h.
    ReadKeys,
    /// READ RESERVATION, 01h.
    ReadReservation,
    /// REPORT CAPABILITIES, 02h.
    ReportCapabilities,
    /// READ FULL STATUS, 03h.
    ReadFullStatus,
}

/// The service actions of PERSISTENT RESERVE OUT that this target has (SPC-4).
#[derive(Clone, Copy, Debug, PartialEq, Eq)]
pub enum OutService {
    /// REGISTER, 00h.
    Register,
    /// RESERVE, 01h.
    Reserve,
    /// RELEASE, 02h.
    Release,
    /// CLEAR, 03h.
    Clear,
    /// PREEMPT, 04h.
    Preempt,
    /// PREEMPT AND ABORT, 05h.
    PreemptAndAbort,
    /// REGISTER AND IGNORE EXISTING KEY, 06h.
    RegisterAndIgnoreExistingKey,
}

impl InService {
    /// The service action with this number in the SERVICE ACTION field of a CDB. None where SPC-4 has
    /// no such service action.
    pub fn of(code: u8) -> Option<InService>
        ensures at { result ≡ in_service_at code }
        ensures named { IfSome result (λ s. in_service_code s ≡ code) }
    {
        match code {
            0 => Some(InService::ReadKeys),
            1 => Some(InService::ReadReservation),
            2 => Some(InService::ReportCapabilities),
            3 => Some(InService::ReadFullStatus),
            _ => None,
        }
    }

    /// The number of this service action in the SERVICE ACTION field of a CDB.
    pub fn code(self) -> u8
        ensures { result ≡ in_service_code self }
    {
        match self {
            InService::ReadKeys => 0,
            InService::ReadReservation => 1,
            InService::ReportCapabilities => 2,
            InService::ReadFullStatus => 3,
        }
    }
}

impl OutService {
    /// The service action with this number in the SERVICE ACTION field of a CDB. None where this target
    /// has no such service action.
    pub fn of(code: u8) -> Option<OutService>
        ensures at { result ≡ out_service_at code }
        ensures named { IfSome result (λ s. out_service_code s ≡ code) }
    {
        match code {
            0 => Some(OutService::Register),
            1 => Some(OutService::Reserve),
            2 => Some(OutService::Release),
            3 => Some(OutService::Clear),
            4 => Some(OutService::Preempt),
            5 => Some(OutService::PreemptAndAbort),
            6 => Some(OutService::RegisterAndIgnoreExistingKey),
            _ => None,
        }
    }

    /// The number of this service action in the SERVICE ACTION field of a CDB.
    pub fn code(self) -> u8
        ensures { result ≡ out_service_code self }
    {
        match self {
            OutService::Register => 0,
            OutService::Reserve => 1,
            OutService::Release => 2,
            OutService::Clear => 3,
            OutService::Preempt => 4,
            OutService::PreemptAndAbort => 5,
            OutService::RegisterAndIgnoreExistingKey => 6,
        }
    }
}
