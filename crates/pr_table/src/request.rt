ghost use Rattle.std.specs.Prelude.{◌≡◌, ◌==◌};
ghost use Rattle.pr_words.specs.Services.{out_service_code};

use pr_words::OutService;

/// The service action of a PERSISTENT RESERVE OUT by its number, with the SCOPE and the TYPE of its CDB
/// (SPC-4).
#[derive(Clone, Copy, Debug, PartialEq, Eq)]
pub struct OutAction {
    /// 0 to 6, as `OutService` has them.
    pub action: u8,
    pub scope: u8,
    pub kind: u8,
}

/// The service action of a PERSISTENT RESERVE OUT, with the SCOPE and the TYPE of its CDB (SPC-4).
#[derive(Clone, Copy, Debug, PartialEq, Eq)]
pub struct OutRequest {
    pub service: OutService,
    pub scope: u8,
    pub kind: u8,
}

impl OutRequest {
    /// Whether tasks of removed nexuses are aborted: by PREEMPT AND ABORT alone.
    pub(crate) fn aborts(&self) -> bool
        ensures { result ≡ (out_service_code self.now.service == 5) }
    {
        match self.service {
            OutService::PreemptAndAbort => true,
            OutService::Register
            | OutService::Reserve
            | OutService::Release
            | OutService::Clear
            | OutService::Preempt
            | OutService::RegisterAndIgnoreExistingKey => false,
        }
    }
}
