use pr_table::{OutList, OutRequest};
use pr_tasks::Task;
use pr_words::InService;

/// A command that no check refuses, with all that it needs: nothing of its CDB or of its parameter
/// list is read again. An `allocation` counts bytes.
#[derive(Drop)]
pub enum Admitted {
    TestUnitReady,
    RequestSense {
        descriptor: bool,
        allocation: u8,
    },
    Inquiry {
        vital: bool,
        page: u8,
        allocation: u16,
    },
    ReadCapacity10,
    ReadCapacity16 {
        allocation: u32,
    },
    ReportLuns {
        select: u8,
        allocation: u32,
    },
    /// READ or WRITE.
    Transfer(Task),
    SynchronizeCache,
    ReserveIn {
        service: InService,
        allocation: u16,
    },
    ReserveOut {
        request: OutRequest,
        list: OutList,
    },
}
