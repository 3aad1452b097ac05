// A line of the sheet: what has become of one submit.
use records::report::Stage;

/// An accepted telecommand; ticked where its final report has been collected.
#[derive(Clone, Copy)]
pub struct Accepted {
    pub number: u32,
    pub report: Option<Stage>,
}
