// The number of each status.
ghost use Rattle.std.specs.Prelude.{◌≡◌};
ghost use Rattle.machine.specs.Desks.{status_number};

use crate::state::LinkStatus;

impl LinkStatus {
    /// 0 off, 1 on, 2 stopped.
    pub fn number(self) -> u8
        ensures by_its_case { result ≡ status_number self }
    {
        self as u8
    }
}
