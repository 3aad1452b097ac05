// What one line of a call list says.
use records::call::Call;

#[derive(Drop)]
pub enum Line {
    /// Blank, or a comment: not counted.
    Skipped,
    /// Counted, and no call: it has none of the forms below.
    Unreadable,
    Call(Call<Vec<u8>>),
    /// The question what a link would send now.
    Message { link: u32 },
}
