//! Commands: their checks, and what those do that pass.

ghost use Rattle.std.specs.Prelude.{◌≡◌, ◌<◌, ◌≤◌, ℕ, List, [], Some, None, is_some, true, not, length, take, IfOk};
ghost use Rattle.pr_io.specs.Causes.{HasCause};
ghost use Rattle.pr_words.specs.Services.{in_service_code};
ghost use Rattle.pr_words.specs.declared.limits.TheConstants.{DATA, LIMIT};
ghost use Rattle.pr_grammar.specs.Operations.{operation_at, class_of};
ghost use Rattle.pr_model.specs.Conflicts.{is_forbidden, role_of};
ghost use Rattle.pr_model.specs.Tasks.{new_task};
ghost use Rattle.pr_model.specs.Keeping.{kept, same_kept};
ghost use Rattle.pr_model.specs.Registrants.{IsWellFormed};
ghost use Rattle.pr_model.specs.Worlds.{World};
ghost use Rattle.pr_model.specs.Commands.{reserve_in_data};
ghost use Rattle.pr_model.specs.Entries.{entry, Command as Commands};
ghost use Rattle.pr_table.specs.Tables.{standing_of};
ghost use Rattle.pr_table.specs.Told.{requested};
ghost use Rattle.pr_aptpl.specs.Doubts.{HavePorts};
ghost use Rattle.pr_aptpl.specs.Keepers.{disk_of, is_told};
ghost use Rattle.pr_core.specs.Seats.{seat_of};
ghost use Rattle.pr_core.specs.Outs.{out_of, IsProper, IsEnded, IsFed, Begins, LeavesData};
ghost use Rattle.pr_core.specs.Fitting.{Fits};
ghost use Rattle.pr_core.specs.Passing.{FitsIn, IsBegun};
ghost use Rattle.pr_core.specs.Saves.{Holds, SavesTo};
ghost use Rattle.pr_core.specs.Admits.{PassesAttention, PassesUnit, Serves, ServesStill, Senses, Reserves, Passed};

use crate::admitted::Admitted;
use crate::answers::CommandOut;
use crate::checks::{check_cdb, check_operation, is_elsewhere};
use crate::replies::{write_capacity10, write_capacity16, write_inquiry, write_luns, write_sense};
use crate::state::State;
use pr_aptpl::Keeper;
use pr_cdb::{OperationCode, class, is_unconditional, operation};
use pr_io::{Disk, Failed};
use pr_param::{Registrants, write_capabilities, write_full, write_keys, write_reservation};
use pr_rules::allows;
use pr_table::{OutList, OutRequest, Table, Verdict};
use pr_tasks::Task;
use pr_words::{Code, InService, Nexus, Role};

/// Saves what a table keeps, where that has changed or something is in doubt.
///
/// # Errors
///
/// Where the disk has failed.
fn save<D: Disk>(keeper: &mut Keeper<D>, table: &Table, keeps: bool) -> Result<(), Failed>
    requires formed { IsWellFormed LIMIT (standing_of table.now) }
    requires ports { HavePorts (standing_of table.now).pairs }
    ensures saves { (w v : World) → Holds keeper.old w
        → kept v.standing ≡ kept (standing_of table.now) → v.doubts ≡ []
        → keeps ≡ not (same_kept (kept w.standing) (kept v.standing))
        → SavesTo keeper.old keeper.new w v result }
    ensures reference { D.reference (disk_of keeper.new) ≡ D.reference (disk_of keeper.old) }
    ensures told { is_told keeper.new ≡ is_told keeper.old }
    ensures cause { HasCause (D.faults (disk_of keeper.old)) (D.faults (disk_of keeper.new))
        result }
{
    if !keeps && !keeper.in_doubt() {
        return Ok(());
    }
    keeper.save(table)
}

impl State {
    ghost use Rattle.pr_core.specs.States.{owner_at, progress_at, TasksStay};
    ghost use Rattle.pr_core.specs.Saves.{EntersSaving, Counts};

    /// A command of a nexus, with its data-out in the first bytes of the buffer.
    pub fn command<D: Disk>(
        &mut self,
        keeper: &mut Keeper<D>,
        nexus: Nexus,
        lun: u16,
        cdb: &[u8],
        buf: &mut [u8],
        out_len: usize,
    ) -> CommandOut
        requires known { is_some (seat_of self.old.seats nexus) ≡ true }
        requires owned { is_some (owner_at self.old nexus) ≡ true }
        requires idle { progress_at self.old nexus ≡ None }
        requires cdb { 0 < length cdb.now }
        requires room { DATA ≤ length buf.old }
        requires sent { out_len ≤ length buf.old }
        ensures enters { (who : ℕ) → owner_at self.old nexus ≡ Some who
            → EntersSaving self.old self.new keeper.old keeper.new (entry who nexus
            (Commands lun cdb.now (take out_len buf.old)) (out_of result buf.new)) }
        ensures counts { Counts keeper.old keeper.new result }
        ensures owner { owner_at self.new ≡ owner_at self.old }
        ensures begins { Begins result (progress_at self.new nexus) }
        ensures fed { IsFed result out_len }
        ensures others { TasksStay nexus self.old self.new }
        ensures blocks { self.new.blocks ≡ self.old.blocks }
        ensures proper { IsProper result }
        ensures kept { LeavesData result buf.old buf.new }
    {
        let operation = match self.check_unit(nexus, lun, cdb[0]) {
            Ok(operation) => operation,
            Err(code) => return CommandOut::checking(code),
        };
        if self.is_forbidden(nexus, cdb[0]) {
            return CommandOut::conflict();
        }
        match check_cdb(operation, cdb, &buf[..out_len], self.blocks) {
            Ok(admitted) => self.serve(keeper, nexus, lun, admitted, buf),
            Err(code) => CommandOut::checking(code),
        }
    }

    /// The checks of the unit and of the operation code. A unit attention that waits is taken and
    /// reported.
    fn check_unit(&mut self, nexus: Nexus, lun: u16, op: u8) -> Result<OperationCode, Code>
        requires known { is_some (seat_of self.old.seats nexus) ≡ true }
        ensures passes { PassesUnit self.old self.new nexus lun op result }
        ensures owner { owner_at self.new ≡ owner_at self.old }
        ensures progress { progress_at self.new ≡ progress_at self.old }
        ensures known { is_some (seat_of self.new.seats nexus) ≡ true }
        ensures blocks { self.new.blocks ≡ self.old.blocks }
    {
        let operation = operation(op);
        if is_elsewhere(lun, operation) {
            return Err(Code::LOGICAL_UNIT_NOT_SUPPORTED);
        }
        self.check_attention(nexus, operation)?;
        check_operation(operation)
    }

    /// Whether the reservation forbids a nexus what the command with this operation code does.
    fn is_forbidden(&self, nexus: Nexus, op: u8) -> bool
        ensures { result ≡ is_forbidden (standing_of self.now.table) nexus (class_of op) }
    {
        match self.table.kind() {
            Some(kind) => !allows(kind, self.role(nexus), class(op)),
            None => false,
        }
    }

    /// What a nexus is to the reservation.
    fn role(&self, nexus: Nexus) -> Role
        ensures { result ≡ role_of (standing_of self.now.table) nexus }
    {
        if self.table.is_holder(nexus) {
            Role::Holder
        } else if self.table.is_registered(nexus) {
            Role::Registered
        } else {
            Role::Stranger
        }
    }

    /// A unit attention that waits is taken and reported.
    fn check_attention(
        &mut self,
        nexus: Nexus,
        operation: Option<OperationCode>,
    ) -> Result<(), Code>
        requires known { is_some (seat_of self.old.seats nexus) ≡ true }
        ensures passes { (op : ℕ) → operation ≡ operation_at op
            → PassesAttention self.old self.new nexus op result }
        ensures owner { owner_at self.new ≡ owner_at self.old }
        ensures progress { progress_at self.new ≡ progress_at self.old }
        ensures blocks { self.new.blocks ≡ self.old.blocks }
        ensures known { is_some (seat_of self.new.seats nexus) ≡ true }
    {
        if is_unconditional(operation) {
            return Ok(());
        }
        match self.seats.take_attention(nexus) {
            Some(code) => Err(code),
            None => Ok(()),
        }
    }

    /// A command that no check refuses. Its data-in goes to the front of the buffer.
    fn serve<D: Disk>(
        &mut self,
        keeper: &mut Keeper<D>,
        nexus: Nexus,
        lun: u16,
        admitted: Admitted,
        buf: &mut [u8],
    ) -> CommandOut
        requires known { is_some (seat_of self.old.seats nexus) ≡ true }
        requires owned { is_some (owner_at self.old nexus) ≡ true }
        requires idle { progress_at self.old nexus ≡ None }
        requires fits { FitsIn self.old.blocks admitted }
        requires room { DATA ≤ length buf.old }
        ensures serves { Serves self.old self.new keeper.old keeper.new nexus lun admitted result
            buf.new }
        ensures begun { IsBegun admitted result }
        ensures owner { owner_at self.new ≡ owner_at self.old }
        ensures begins { Begins result (progress_at self.new nexus) }
        ensures others { TasksStay nexus self.old self.new }
        ensures blocks { self.new.blocks ≡ self.old.blocks }
        ensures proper { IsProper result }
        ensures kept { LeavesData result buf.old buf.new }
    {
        match admitted {
            Admitted::TestUnitReady | Admitted::SynchronizeCache => CommandOut::good(0),
            Admitted::RequestSense {
                descriptor,
                allocation,
            } => {
                let code = self.sense_code(nexus, lun);
                CommandOut::good(write_sense(descriptor, code, allocation, buf))
            }
            Admitted::Inquiry {
                vital,
                page,
                allocation,
            } => CommandOut::good(write_inquiry(vital, page, lun == 0, allocation, buf)),
            Admitted::ReadCapacity10 => CommandOut::good(write_capacity10(self.blocks, buf)),
            Admitted::ReadCapacity16 { allocation } => {
                CommandOut::good(write_capacity16(self.blocks, allocation, buf))
            }
            Admitted::ReportLuns { select, allocation } => {
                CommandOut::good(write_luns(select, allocation, buf))
            }
            Admitted::Transfer(task) => self.begin(nexus, task),
            Admitted::ReserveIn {
                service,
                allocation,
            } => CommandOut::good(self.write_reply(service, allocation, buf)),
            Admitted::ReserveOut { request, list } => {
                self.reserve_out(keeper, nexus, &request, &list)
            }
        }
    }

    /// A READ or WRITE: of no blocks it has ended at once, and of others its task begins.
    fn begin(&mut self, nexus: Nexus, task: Task) -> CommandOut
        requires known { is_some (seat_of self.old.seats nexus) ≡ true }
        requires owned { is_some (owner_at self.old nexus) ≡ true }
        requires idle { progress_at self.old nexus ≡ None }
        requires fits { Fits self.old.blocks task }
        requires fresh { task ≡ new_task task.way task.lba task.count }
        ensures serves { (lun : ℕ) (buf : List ℕ) → ServesStill self.old self.new nexus lun
            (Admitted.Transfer task) result buf }
        ensures passed { Passed result }
        ensures begun { IsBegun (Admitted.Transfer task) result }
        ensures owner { owner_at self.new ≡ owner_at self.old }
        ensures begins { Begins result (progress_at self.new nexus) }
        ensures others { TasksStay nexus self.old self.new }
        ensures blocks { self.new.blocks ≡ self.old.blocks }
        ensures proper { IsProper result }
    {
        let (way, count) = (task.way(), task.left());
        if count == 0 {
            return CommandOut::good(0);
        }
        self.seats.begin(nexus, task);
        CommandOut::Started { way, count }
    }

    /// What REQUEST SENSE hands out: on logical unit 0 the attention that is reported first, which
    /// is taken.
    fn sense_code(&mut self, nexus: Nexus, lun: u16) -> Code
        requires known { is_some (seat_of self.old.seats nexus) ≡ true }
        ensures senses { Senses self.old self.new nexus lun result }
        ensures owner { owner_at self.new ≡ owner_at self.old }
        ensures progress { progress_at self.new ≡ progress_at self.old }
        ensures blocks { self.new.blocks ≡ self.old.blocks }
    {
        if lun != 0 {
            return Code::LOGICAL_UNIT_NOT_SUPPORTED;
        }
        self.seats.take_attention(nexus).unwrap_or(Code::NO_SENSE)
    }

    /// Writes the data of a PERSISTENT RESERVE IN, and says how long it is.
    fn write_reply(&self, service: InService, allocation: u16, buf: &mut [u8]) -> usize
        requires { DATA ≤ length buf.old }
        ensures within { result ≤ DATA }
        ensures bytes { take result buf.new ≡ take allocation
            (reserve_in_data (in_service_code service) (standing_of self.now.table)) }
    {
        let allocation = usize::from(allocation);
        match service {
            InService::ReadKeys => write_keys(&self.table, allocation, buf),
            InService::ReadReservation => write_reservation(&self.table, allocation, buf),
            InService::ReportCapabilities => write_capabilities(&self.table, allocation, buf),
            InService::ReadFullStatus => write_full(&self.table, allocation, buf),
        }
    }

    /// A PERSISTENT RESERVE OUT with its parameter list. It acts on the spare table; where it is
    /// accepted and changes what is kept, that is saved before the table is taken over.
    fn reserve_out<D: Disk>(
        &mut self,
        keeper: &mut Keeper<D>,
        nexus: Nexus,
        request: &OutRequest,
        list: &OutList,
    ) -> CommandOut
        requires known { is_some (seat_of self.old.seats nexus) ≡ true }
        ensures reserves { Reserves self.old self.new keeper.old keeper.new nexus
            (requested request.now list.now) result }
        ensures owner { owner_at self.new ≡ owner_at self.old }
        ensures progress { progress_at self.new ≡ progress_at self.old }
        ensures blocks { self.new.blocks ≡ self.old.blocks }
        ensures ended { IsEnded result }
        ensures proper { IsProper result }
    {
        self.spare.copy_from(&self.table);
        match self.spare.serve(nexus, request, list) {
            Verdict::Good(change) => match save(keeper, &self.spare, change.keeps) {
                Ok(()) => {
                    self.table.copy_from(&self.spare);
                    self.seats.tell(nexus, &self.spare, &change);
                    self.seats.mark(&self.spare, &change);
                    CommandOut::good(0)
                }
                Err(_) => CommandOut::checking(Code::INTERNAL_TARGET_FAILURE),
            },
            Verdict::Conflict => CommandOut::conflict(),
            Verdict::Bad(code) => CommandOut::checking(code),
        }
    }
}
