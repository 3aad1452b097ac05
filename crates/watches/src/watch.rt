// What a watch is.
ghost use Rattle.std.specs.Prelude.{◌≡◌};
ghost use Rattle.watches.specs.Meaning.{within, WatchKind, LawfulWatch, see_answer};

/// A watch of functions from 1 to its width, each good or in trouble.
pub trait Watch {
    ghost kind: { WatchKind };

    ghost state: { Self → kind.State };

    fn width(&self) -> u32
        ensures width_of_its_state { result ≡ kind.width (state self.now) };

    fn in_trouble(&self, function: u32) -> bool
        ensures trouble_in_its_state { result ≡ kind.trouble (state self.now) function };

    /// Shows a function a value: None refuses, else the answer says whether the function is in trouble now.
    fn see(&mut self, function: u32, value: u32) -> Option<bool>
        ensures answer { result ≡ see_answer kind (state self.old) function value }
        ensures after { state self.new ≡ kind.seen (state self.old) function value };

    ghost lawful: { LawfulWatch kind };

    ghost ok: { (x : Self) → kind.Ok (state x) };
}

/// Whether a watch of a width has a function.
pub fn has_function(width: u32, function: u32) -> bool
    ensures from_1_to_the_width { result ≡ within width function }
{
    (1..=width).contains(&function)
}
