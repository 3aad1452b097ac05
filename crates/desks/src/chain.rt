// How a fault travels: from a link to the step of a run, and from there into a report.
ghost use Rattle.std.specs.Prelude.{◌≡◌};
ghost use Rattle.desks.specs.Chains.{link_fault, step_fault, of_step, stands_at, in_step, in_report};

use machine::state::Run;
use records::fault::{Fault, FaultKind};

/// Why a link did not bring a command to its unit, or its unit did not acknowledge it.
#[derive(Clone, Copy)]
pub enum LinkFault {
    Stopped { link: u8 },
    Used { link: u8 },
    Worn { link: u8 },
    Nack { link: u8, code: u16, detail: u32 },
    Odd { link: u8 },
    NoAck { link: u8 },
}

/// Why a step of a run failed, and which.
#[derive(Clone, Copy)]
pub enum StepFault {
    Link { step: u8, fault: LinkFault },
    Expect { step: u8, function: u8 },
}

impl From<LinkFault> for Fault {
    ghost from_gives = { λ x y. y ≡ link_fault x };

    fn from(fault: LinkFault) -> Fault {
        match fault {
            LinkFault::Stopped { link } => FaultKind::UnitStopped.fault(u32::from(link)),
            LinkFault::Used { link } => FaultKind::LinkUsed.fault(u32::from(link)),
            LinkFault::Worn { link } => FaultKind::LinkWorn.fault(u32::from(link)),
            LinkFault::Nack { link, code, detail } => Fault::nack(u32::from(link), code, detail),
            LinkFault::Odd { link } => FaultKind::Odd.fault(u32::from(link)),
            LinkFault::NoAck { link } => FaultKind::NoAck.fault(u32::from(link)),
        }
    }
}

/// A link's fault, with the step that met it.
impl From<(u8, LinkFault)> for StepFault {
    ghost from_gives = { λ x y. y ≡ of_step x.0 x.1 };

    fn from(met: (u8, LinkFault)) -> StepFault {
        StepFault::Link {
            step: met.0,
            fault: met.1,
        }
    }
}

impl From<StepFault> for Fault {
    ghost from_gives = { λ x y. y ≡ step_fault x };

    fn from(fault: StepFault) -> Fault {
        match fault {
            StepFault::Link { step, fault } => Fault::from(fault).at_step(step),
            StepFault::Expect { step, function } => FaultKind::ExpectFailed
                .fault(u32::from(function))
                .at_step(step),
        }
    }
}

/// The step where a run stands, from 1, as a fault tells it.
pub fn standing(run: Run) -> u8
    ensures from_1 { result ≡ stands_at run }
{
    run.step.saturating_add(1).min(255) as u8
}

/// A link's answer, as the step that asked for it has it.
pub fn in_step(step: u8, answer: Result<(), LinkFault>) -> Result<(), StepFault>
    ensures fault_with_its_step { result ≡ in_step step answer }
{
    Ok(answer.map_err(|fault| (step, fault))?)
}

/// A link's answer, as the report of a run has it: code, detail and step kept.
pub fn in_report(step: u8, answer: Result<(), LinkFault>) -> Result<(), Fault>
    ensures fault_kept_whole { result ≡ in_report step answer }
{
    Ok(in_step(step, answer)?)
}
