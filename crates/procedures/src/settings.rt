// Parameters of a procedure, written in turn.
ghost use Rattle.std.specs.Prelude.{◌≡◌};
ghost use Rattle.desks.specs.Logs.{fault_in};
ghost use Rattle.machine.specs.Procedures.{illegal_fault, written_to};

use desks::items::set_item;
use records::fault::{Fault, FaultKind};
use telecommands::packet::Setting;

/// Writes settings up to the first with an ID that is none, which is the fault's parameter.
pub fn write_in_turn(parameters: &mut [u32], nop: u16, settings: &[Setting]) -> Result<(), Fault>
    ensures those_before_stay_written { parameters.new ≡ (written_to nop parameters.old settings.now).parameters }
    ensures first_illegal_id { fault_in result ≡ illegal_fault (written_to nop parameters.old settings.now).illegal }
{
    for setting in settings {
        if setting.id == 0 || setting.id > nop {
            return Err(FaultKind::IllegalParameterId.fault(u32::from(setting.id)));
        }
        set_item(parameters, usize::from(setting.id) - 1, setting.value);
    }
    Ok(())
}
