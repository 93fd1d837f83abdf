/// The operation codes of the commands that the target serves, by the commands' names (SPC-4, SBC-3).
#[derive(Clone, Copy, Debug, PartialEq, Eq)]
pub enum OperationCode {
    TestUnitReady,
    RequestSense,
    Inquiry,
    ReadCapacity10,
    Read10,
    Write10,
    SynchronizeCache10,
    /// PERSISTENT RESERVE IN.
    ReserveIn,
    /// PERSISTENT RESERVE OUT.
    ReserveOut,
    Read16,
    Write16,
    /// SERVICE ACTION IN(16), of which READ CAPACITY(16) is served.
    ReadCapacity16,
    ReportLuns,
}
