// Links set on or off, functions switched on or off.
ghost use Rattle.std.specs.Prelude.{◌≡◌};
ghost use Rattle.desks.specs.Logs.{fault_in};
ghost use Rattle.machine.specs.Procedures.{Outcome, setting};
ghost use Rattle.procedures.specs.Judging.{switched, setting_status, setting_switch};

use desks::desk::Desk;
use desks::items::set_item;
use machine::state::LinkStatus;
use records::fault::{Fault, FaultKind};
use watches::watch::has_function;

/// 1 is on and 0 is off.
fn is_on(value: u32) -> Result<bool, Fault>
    ensures one_or_zero { result ≡ switched value }
{
    match value {
        0 => Ok(false),
        1 => Ok(true),
        _ => Err(FaultKind::InvalidParameter.fault(value)),
    }
}

fn set_status(desk: &mut Desk, sid: u16, value: u32) -> Result<(), Fault>
    ensures on_or_off { ◌≡◌ {A = Outcome} (record { desk = desk.new; fault = fault_in result }) (setting_status desk.old sid value) }
{
    if sid > 2 {
        return Err(FaultKind::InvalidSid.fault(u32::from(sid)));
    }
    let status = if is_on(value)? {
        LinkStatus::On
    } else {
        LinkStatus::Off
    };
    desk.set_status(sid, status);
    Ok(())
}

fn set_switch(desk: &mut Desk, width: u32, sid: u16, value: u32) -> Result<(), Fault>
    ensures on_or_off { ◌≡◌ {A = Outcome} (record { desk = desk.new; fault = fault_in result }) (setting_switch width desk.old sid value) }
{
    if !has_function(width, u32::from(sid)) {
        return Err(FaultKind::InvalidWatched.fault(u32::from(sid)));
    }
    set_item(&mut desk.switches, usize::from(sid) - 1, is_on(value)?);
    Ok(())
}

// Kept: the activity is a number, since a packet may hold any, and for a trigger it is the ID of the command.
/// Activity 1 sets a link's status, activity 2 a function on or off.
pub fn set(desk: &mut Desk, width: u32, activity: u8, sid: u16, value: u32) -> Result<(), Fault>
    ensures by_the_activity { ◌≡◌ {A = Outcome} (record { desk = desk.new; fault = fault_in result }) (setting width desk.old activity sid value) }
{
    match activity {
        1 => set_status(desk, sid, value),
        2 => set_switch(desk, width, sid, value),
        _ => Err(FaultKind::InvalidActivity.fault(u32::from(activity))),
    }
}
