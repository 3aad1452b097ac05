// An accepted telecommand inside the program: settled by its final report, or parked as a pending number.
ghost use Rattle.std.specs.Prelude.{◌≡◌};
ghost use Rattle.machine.specs.Desks.{filed};
ghost use Rattle.records.specs.declared.report.Stage.TheVariants.{Started};
ghost use Rattle.desks.specs.Logs.{settled_in};

use crate::log::Log;
use records::fault::Fault;
use records::report::Stage;

pub struct Ticket {
    number: u32,
}

impl Ticket {
    pub(crate) fn of(number: u32) -> Ticket
        ensures of_this_number { result.number ≡ number }
    {
        Ticket { number }
    }

    pub fn number(&self) -> u32
        ensures its_own { result ≡ self.now.number }
    {
        self.number
    }

    /// Its final report, with nothing sent.
    pub fn settle(self, outcome: Result<(), Fault>, log: &mut Log)
        ensures one_final_report { log.new ≡ settled_in self.number outcome log.old }
    {
        let Ticket { number } = self;
        match outcome {
            Ok(()) => log.file(number, Stage::Done { sent: 0 }),
            Err(fault) => log.file(number, Stage::Failed { sent: 0, fault }),
        }
    }

    /// STARTED now, its final report later.
    pub fn park(self, log: &mut Log)
        ensures started { log.new ≡ filed log.old self.number Started }
    {
        let Ticket { number } = self;
        log.file(number, Stage::Started);
    }
}

impl Drop for Ticket {
    // Numbers of accepted telecommands begin at 1, so a ticket that stands for one is not to be forgotten.
    fn drop(self)
        requires { self.number ≡ 0 }
    {
        let Ticket { number: _ } = self;
    }
}
