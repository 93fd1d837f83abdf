//! The checks of a command, in their order: each answers the code of its refusal.

ghost use Rattle.std.specs.Prelude.{◌≡◌, ◌<◌, ℕ, Some, is_some, true, length, IfOk, OnOk};
ghost use Rattle.pr_words.specs.Services.{out_service_code};
ghost use Rattle.pr_grammar.specs.Operations.{operation_at, unconditional_in};
ghost use Rattle.pr_grammar.specs.Cdbs.{operation_code};
ghost use Rattle.pr_grammar.specs.Pages.{report_luns};
ghost use Rattle.pr_model.specs.Commands.{has_bad_list, inquiry_data};
ghost use Rattle.pr_model.specs.Commands as model;
ghost use Rattle.pr_core.specs.Passing.{PassesOperation, PassesForm, PassesCommand, PassesCdb, PassesTransfer, PassesNoData, PassesLength};

use crate::admitted::Admitted;
use pr_cdb::{Command, OperationCode, is_unconditional, read_as};
use pr_param::read_out_list;
use pr_table::{OutList, OutRequest};
use pr_tasks::Task;
use pr_words::{BLOCK, Code, InService, Kind, OutService, Way};

/// Whether a command is for a logical unit that isn't there, other than 0.
pub fn is_elsewhere(lun: u16, operation: Option<OperationCode>) -> bool
    ensures { (op : ℕ) → operation ≡ operation_at op → result ≡ model.is_elsewhere lun op }
{
    lun != 0 && !is_unconditional(operation)
}

/// The check of the operation code: whether the target has its command.
pub fn check_operation(operation: Option<OperationCode>) -> Result<OperationCode, Code>
    ensures { PassesOperation operation result }
{
    operation.ok_or(Code::INVALID_COMMAND_OPERATION_CODE)
}

/// The checks of a CDB with its data-out, over a medium of so many blocks.
pub fn check_cdb(
    operation: OperationCode,
    cdb: &[u8],
    sent: &[u8],
    blocks: u64,
) -> Result<Admitted, Code>
    requires { operation_at (operation_code cdb.now) ≡ Some operation }
    ensures { PassesCdb blocks operation cdb.now sent.now result }
{
    let command = check_form(operation, cdb)?;
    check_command(command, sent, blocks)
}

/// The checks of a CDB's form: its length, and NACA.
fn check_form(operation: OperationCode, cdb: &[u8]) -> Result<Command, Code>
    requires { operation_at (operation_code cdb.now) ≡ Some operation }
    ensures { PassesForm operation cdb.now result }
{
    match read_as(operation, cdb) {
        Ok(found) if !found.naca => Ok(found.command),
        _ => Err(Code::INVALID_FIELD_IN_CDB),
    }
}

/// The check of the data-out's length.
fn check_length(announced: usize, sent: &[u8]) -> Result<(), Code>
    ensures passes { PassesLength announced sent.now result }
    ensures size { OnOk result (length sent.now ≡ announced) }
{
    if sent.len() == announced {
        Ok(())
    } else {
        Err(Code::PARAMETER_LIST_LENGTH_ERROR)
    }
}

/// A command's own checks: its fields, its data-out's length, and its parameter list.
fn check_command(command: Command, sent: &[u8], blocks: u64) -> Result<Admitted, Code>
    ensures { PassesCommand blocks command sent.now result }
{
    match command {
        Command::TestUnitReady => check_no_data(sent, Admitted::TestUnitReady),
        Command::RequestSense {
            descriptor,
            allocation,
        } => check_no_data(
            sent,
            Admitted::RequestSense {
                descriptor,
                allocation,
            },
        ),
        Command::Inquiry {
            vital,
            page,
            allocation,
        } => check_inquiry(vital, page, allocation, sent),
        Command::ReadCapacity10 => check_no_data(sent, Admitted::ReadCapacity10),
        Command::ReadCapacity16 { action, allocation } => check_capacity16(
            action, allocation, sent,
        ),
        Command::ReportLuns { select, allocation } => check_luns(select, allocation, sent),
        Command::Read {
            protect,
            lba,
            count,
            ..
        } => check_transfer(Way::Read, protect, lba, count, 0, sent, blocks),
        Command::Write {
            protect,
            lba,
            count,
            ..
        } => {
            let announced = BLOCK * count as usize;
            check_transfer(Way::Write, protect, lba, count, announced, sent, blocks)
        }
        Command::SynchronizeCache { lba, count } => check_synchronize(lba, count, sent, blocks),
        Command::ReserveIn { action, allocation } => check_reserve_in(action, allocation, sent),
        Command::ReserveOut {
            action,
            scope,
            kind,
            length,
        } => check_reserve_out(action, scope, kind, length, sent),
    }
}

/// The check of the length alone, of a command without data-out.
fn check_no_data(sent: &[u8], admitted: Admitted) -> Result<Admitted, Code>
    ensures { PassesNoData admitted sent.now result }
{
    check_length(0, sent)?;
    Ok(admitted)
}

/// The checks of an INQUIRY.
fn check_inquiry(vital: bool, page: u8, allocation: u16, sent: &[u8]) -> Result<Admitted, Code>
    ensures { (blocks : ℕ) →
        PassesCommand blocks (Command.Inquiry vital page allocation) sent.now result }
{
    if !has_inquiry_data(vital, page) {
        return Err(Code::INVALID_FIELD_IN_CDB);
    }
    check_length(0, sent)?;
    Ok(Admitted::Inquiry {
        vital,
        page,
        allocation,
    })
}

/// Whether there are such data: the standard ones, which have no page code, or a page.
fn has_inquiry_data(vital: bool, page: u8) -> bool
    ensures { result ≡ is_some (inquiry_data vital page true) }
{
    if vital {
        matches!(page, 0x00 | 0x80 | 0x83)
    } else {
        page == 0
    }
}

/// The checks of a READ CAPACITY(16).
fn check_capacity16(action: u8, allocation: u32, sent: &[u8]) -> Result<Admitted, Code>
    ensures { (blocks : ℕ) →
        PassesCommand blocks (Command.ReadCapacity16 action allocation) sent.now result }
{
    if action != 0x10 {
        return Err(Code::INVALID_FIELD_IN_CDB);
    }
    check_length(0, sent)?;
    Ok(Admitted::ReadCapacity16 { allocation })
}

/// The checks of a REPORT LUNS.
fn check_luns(select: u8, allocation: u32, sent: &[u8]) -> Result<Admitted, Code>
    ensures { (blocks : ℕ) →
        PassesCommand blocks (Command.ReportLuns select allocation) sent.now result }
{
    if !has_report(select) {
        return Err(Code::INVALID_FIELD_IN_CDB);
    }
    check_length(0, sent)?;
    Ok(Admitted::ReportLuns { select, allocation })
}

/// Whether there is such a report.
fn has_report(select: u8) -> bool
    ensures { result ≡ is_some (report_luns select) }
{
    matches!(select, 0x00..=0x02)
}

/// The checks of a READ or WRITE that announces so many bytes of data-out.
fn check_transfer(
    way: Way,
    protect: u8,
    lba: u64,
    count: u32,
    announced: usize,
    sent: &[u8],
    blocks: u64,
) -> Result<Admitted, Code>
    ensures { PassesTransfer blocks way protect lba count announced sent.now result }
{
    if protect != 0 {
        return Err(Code::INVALID_FIELD_IN_CDB);
    }
    let task = Task::begin(way, lba, count, blocks)?;
    check_length(announced, sent)?;
    Ok(Admitted::Transfer(task))
}

/// The checks of a SYNCHRONIZE CACHE(10).
fn check_synchronize(lba: u32, count: u16, sent: &[u8], blocks: u64) -> Result<Admitted, Code>
    ensures { PassesCommand blocks (Command.SynchronizeCache lba count) sent.now result }
{
    if u64::from(lba) + u64::from(count) > blocks {
        return Err(Code::LOGICAL_BLOCK_ADDRESS_OUT_OF_RANGE);
    }
    check_length(0, sent)?;
    Ok(Admitted::SynchronizeCache)
}

/// The checks of a PERSISTENT RESERVE IN.
fn check_reserve_in(action: u8, allocation: u16, sent: &[u8]) -> Result<Admitted, Code>
    ensures { (blocks : ℕ) →
        PassesCommand blocks (Command.ReserveIn action allocation) sent.now result }
{
    let Some(service) = InService::of(action) else {
        return Err(Code::INVALID_FIELD_IN_CDB);
    };
    check_length(0, sent)?;
    Ok(Admitted::ReserveIn {
        service,
        allocation,
    })
}

/// The checks of a PERSISTENT RESERVE OUT.
fn check_reserve_out(
    action: u8,
    scope: u8,
    kind: u8,
    length: u32,
    sent: &[u8],
) -> Result<Admitted, Code>
    ensures { (blocks : ℕ) →
        PassesCommand blocks (Command.ReserveOut action scope kind length) sent.now result }
{
    let Some(service) = OutService::of(action) else {
        return Err(Code::INVALID_FIELD_IN_CDB);
    };
    let request = OutRequest {
        service,
        scope,
        kind,
    };
    if is_unreservable(&request) {
        return Err(Code::INVALID_FIELD_IN_CDB);
    }
    check_length(length as usize, sent)?;
    let Ok(list) = read_out_list(sent) else {
        return Err(Code::PARAMETER_LIST_LENGTH_ERROR);
    };
    if list_is_bad(service, &list) {
        return Err(Code::INVALID_FIELD_IN_PARAMETER_LIST);
    }
    Ok(Admitted::ReserveOut { request, list })
}

/// Whether a RESERVE has a scope that isn't the logical unit's, or a type that is none of the six.
fn is_unreservable(request: &OutRequest) -> bool
    ensures { result ≡ model.has_bad_service
        (out_service_code request.now.service) request.now.scope request.now.kind }
{
    matches!(request.service, OutService::Reserve)
        && (request.scope != 0 || Kind::of(request.kind).is_none())
}

/// Whether a parameter list asks for SPEC_I_PT, or for ALL_TG_PT where a nexus registers.
fn list_is_bad(service: OutService, list: &OutList) -> bool
    ensures { result ≡ has_bad_list (out_service_code service) list.now }
{
    let registers = matches!(
        service,
        OutService::Register | OutService::RegisterAndIgnoreExistingKey
    );
    list.spec_i_pt || (list.all_tg_pt && registers)
}
