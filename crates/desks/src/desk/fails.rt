// How a run ends with a fault.
ghost use Rattle.std.specs.Prelude.{◌≡◌};
ghost use Rattle.records.specs.declared.report.Stage.TheVariants.{Failed};
ghost use Rattle.desks.specs.Desked.{run_ended};

use super::Desk;
use machine::state::Run;
use records::fault::Fault;
use records::report::Stage;

impl Desk {
    /// Ends the run with a fault: its report counts what the run sent.
    pub fn fail_run(&mut self, run: Run, fault: Fault)
        ensures failed_with_what_it_sent { self.new ≡ run_ended run (Failed run.sent fault) self.old }
    {
        self.end_run(
            run,
            Stage::Failed {
                sent: run.sent,
                fault,
            },
        );
    }
}
