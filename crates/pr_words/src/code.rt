ghost use Rattle.std.specs.Prelude.{◌≡◌};
ghost use Rattle.pr_words.specs.Codes.{status_code};

/// The statuses that this target gives (SAM-5).
#[derive(Clone, Copy, Debug, PartialEq, Eq)]
pub enum Status {
    Good,
    CheckCondition,
    ReservationConflict,
    TaskAborted,
}

/// A sense key with its additional sense code and qualifier (SPC-4).
#[derive(Clone, Copy, Debug, PartialEq, Eq)]
pub struct Code {
    pub key: u8,
    pub asc: u8,
    pub ascq: u8,
}

/// Sense data: its code, and the INFORMATION field where it is valid (SPC-4).
#[derive(Clone, Copy, Debug, PartialEq, Eq)]
pub struct Sense {
    pub code: Code,
    pub info: Option<u32>,
}

// The sense keys of the codes that this target gives, by the names that SPC-4 has for them.

/// MEDIUM ERROR.
pub const MEDIUM_ERROR: u8 = 3;

/// HARDWARE ERROR.
pub const HARDWARE_ERROR: u8 = 4;

/// ILLEGAL REQUEST.
pub const ILLEGAL_REQUEST: u8 = 5;

/// UNIT ATTENTION.
pub const UNIT_ATTENTION: u8 = 6;

/// The codes that this target gives, by the names that SPC-4 has for them (ASC and ASCQ assignments).
impl Code {
    /// No code.
    pub const NO_SENSE: Code = Code {
        key: 0,
        asc: 0,
        ascq: 0,
    };

    /// LOGICAL UNIT NOT SUPPORTED.
    pub const LOGICAL_UNIT_NOT_SUPPORTED: Code = Code {
        key: ILLEGAL_REQUEST,
        asc: 0x25,
        ascq: 0,
    };

    /// INVALID COMMAND OPERATION CODE.
    pub const INVALID_COMMAND_OPERATION_CODE: Code = Code {
        key: ILLEGAL_REQUEST,
        asc: 0x20,
        ascq: 0,
    };

    /// INVALID FIELD IN CDB.
    pub const INVALID_FIELD_IN_CDB: Code = Code {
        key: ILLEGAL_REQUEST,
        asc: 0x24,
        ascq: 0,
    };

    /// LOGICAL BLOCK ADDRESS OUT OF RANGE.
    pub const LOGICAL_BLOCK_ADDRESS_OUT_OF_RANGE: Code = Code {
        key: ILLEGAL_REQUEST,
        asc: 0x21,
        ascq: 0,
    };

    /// PARAMETER LIST LENGTH ERROR.
    pub const PARAMETER_LIST_LENGTH_ERROR: Code = Code {
        key: ILLEGAL_REQUEST,
        asc: 0x1A,
        ascq: 0,
    };

    /// INVALID FIELD IN PARAMETER LIST.
    pub const INVALID_FIELD_IN_PARAMETER_LIST: Code = Code {
        key: ILLEGAL_REQUEST,
        asc: 0x26,
        ascq: 0,
    };

    /// INVALID RELEASE OF PERSISTENT RESERVATION.
    pub const INVALID_RELEASE_OF_PERSISTENT_RESERVATION: Code = Code {
        key: ILLEGAL_REQUEST,
        asc: 0x26,
        ascq: 4,
    };

    /// INSUFFICIENT REGISTRATION RESOURCES.
    pub const INSUFFICIENT_REGISTRATION_RESOURCES: Code = Code {
        key: ILLEGAL_REQUEST,
        asc: 0x55,
        ascq: 4,
    };

    /// WRITE ERROR.
    pub const WRITE_ERROR: Code = Code {
        key: MEDIUM_ERROR,
        asc: 0x0C,
        ascq: 0,
    };

    /// UNRECOVERED READ ERROR.
    pub const UNRECOVERED_READ_ERROR: Code = Code {
        key: MEDIUM_ERROR,
        asc: 0x11,
        ascq: 0,
    };

    /// INTERNAL TARGET FAILURE.
    pub const INTERNAL_TARGET_FAILURE: Code = Code {
        key: HARDWARE_ERROR,
        asc: 0x44,
        ascq: 0,
    };

    /// POWER ON, RESET, OR BUS DEVICE RESET OCCURRED.
    pub const POWER_ON: Code = Code {
        key: UNIT_ATTENTION,
        asc: 0x29,
        ascq: 0,
    };

    /// RESERVATIONS PREEMPTED.
    pub const RESERVATIONS_PREEMPTED: Code = Code {
        key: UNIT_ATTENTION,
        asc: 0x2A,
        ascq: 3,
    };

    /// RESERVATIONS RELEASED.
    pub const RESERVATIONS_RELEASED: Code = Code {
        key: UNIT_ATTENTION,
        asc: 0x2A,
        ascq: 4,
    };

    /// REGISTRATIONS PREEMPTED.
    pub const REGISTRATIONS_PREEMPTED: Code = Code {
        key: UNIT_ATTENTION,
        asc: 0x2A,
        ascq: 5,
    };
}

impl Status {
    /// The status byte.
    pub fn code(self) -> u8
        ensures { result ≡ status_code self }
    {
        match self {
            Status::Good => 0x00,
            Status::CheckCondition => 0x02,
            Status::ReservationConflict => 0x18,
            Status::TaskAborted => 0x40,
        }
    }
}
