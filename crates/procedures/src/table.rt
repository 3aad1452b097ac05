// The table of procedures: loading, deleting, parameters and the judging of a start.
ghost use Rattle.std.specs.Prelude.{◌≡◌};
ghost use Rattle.desks.specs.Logs.{fault_in};
ghost use Rattle.machine.specs.Desks.{with_procedure};
ghost use Rattle.machine.specs.Procedures.{Outcome, loading, deleting, writing, setting_parameters, starting};
ghost use Rattle.procedures.specs.Judging.{fitted, judged_id, loaded};

use crate::settings::write_in_turn;
use crate::steps::procedure_of;
use desks::desk::Desk;
use desks::items::set_item;
use machine::state::Procedure;
use records::fault::{Fault, FaultKind};
use telecommands::packet::{Settings, Steps};

/// The largest count that a fault can name; a packet's is far below.
const MOST_COUNTED: usize = 0xFFFF_FFFF;

fn judge_id(id: u16) -> Result<(), Fault>
    ensures from_1_to_16 { fault_in result ≡ judged_id id }
{
    match id {
        1..=16 => Ok(()),
        _ => Err(FaultKind::InvalidProcedure.fault(u32::from(id))),
    }
}

/// The procedure of an ID, if it is loaded.
fn loaded(desk: &Desk, id: u16) -> Result<Procedure, Fault>
    ensures of_an_id_with_one { result ≡ loaded desk.now id }
{
    judge_id(id)?;
    match desk.procedures.get(usize::from(id) - 1) {
        Some(Some(procedure)) => Ok(*procedure),
        _ => Err(FaultKind::EmptyProcedure.fault(u32::from(id))),
    }
}

fn set_procedure(desk: &mut Desk, id: u16, procedure: Option<Procedure>)
    ensures only_this_one { desk.new ≡ with_procedure desk.old id procedure }
{
    set_item(
        &mut desk.procedures,
        usize::from(id.saturating_sub(1)),
        procedure,
    );
}

pub fn load(desk: &mut Desk, width: u32, id: u16, nop: u16, steps: &Steps) -> Result<(), Fault>
    ensures loaded_or_fault { ◌≡◌ {A = Outcome} (record { desk = desk.new; fault = fault_in result }) (loading width desk.old id nop steps.now) }
{
    judge_id(id)?;
    if desk.runs(id) {
        return Err(FaultKind::IllegalLoad.fault(u32::from(id)));
    }
    if nop > 25 {
        return Err(FaultKind::TooManyParameters.fault(u32::from(nop)));
    }
    let procedure = procedure_of(width, nop, steps)?;
    set_procedure(desk, id, Some(procedure));
    Ok(())
}

pub fn delete(desk: &mut Desk, id: u16) -> Result<(), Fault>
    ensures emptied_or_fault { ◌≡◌ {A = Outcome} (record { desk = desk.new; fault = fault_in result }) (deleting desk.old id) }
{
    loaded(desk, id)?;
    if desk.runs(id) {
        return Err(FaultKind::RunningProcedure.fault(u32::from(id)));
    }
    set_procedure(desk, id, None);
    Ok(())
}

/// Writes settings of a loaded procedure, unless they are too many.
fn write(
    desk: &mut Desk,
    id: u16,
    mut procedure: Procedure,
    settings: &Settings,
) -> Result<(), Fault>
    ensures written_or_fault { ◌≡◌ {A = Outcome} (record { desk = desk.new; fault = fault_in result }) (writing desk.old id procedure (fitted settings.now)) }
{
    let nop = procedure.nop;
    let count = settings.count.min(MOST_COUNTED);
    if count > usize::from(nop) {
        return Err(FaultKind::TooManyParameters.fault(count as u32));
    }
    let written = write_in_turn(&mut procedure.parameters, nop, settings.as_slice());
    set_procedure(desk, id, Some(procedure));
    written
}

pub fn set_parameters(desk: &mut Desk, id: u16, settings: &Settings) -> Result<(), Fault>
    ensures written_or_fault { ◌≡◌ {A = Outcome} (record { desk = desk.new; fault = fault_in result }) (setting_parameters desk.old id (fitted settings.now)) }
{
    let procedure = loaded(desk, id)?;
    write(desk, id, procedure, settings)
}

/// Judges a start and writes its parameters; the run itself begins elsewhere.
pub fn prepare(desk: &mut Desk, id: u16, settings: &Settings) -> Result<(), Fault>
    ensures written_or_fault { ◌≡◌ {A = Outcome} (record { desk = desk.new; fault = fault_in result }) (starting desk.old id (fitted settings.now)) }
{
    let procedure = loaded(desk, id)?;
    if let Some(run) = desk.run {
        return Err(FaultKind::RunningProcedure.fault(u32::from(run.id)));
    }
    write(desk, id, procedure, settings)
}
