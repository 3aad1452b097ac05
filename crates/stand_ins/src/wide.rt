// A watch as wide as can be, made of pairs.
ghost use Rattle.std.specs.Prelude.{◌≡◌};

use watches::pair::Pair;
use watches::still::Still;
use watches::watch::Watch;

pub type Two = Pair<Still, Still>;

pub type Four = Pair<Two, Two>;

pub type Eight = Pair<Four, Four>;

pub type Sixteen = Pair<Eight, Eight>;

pub type Wide = Pair<Sixteen, Pair<Four, Pair<Two, Still>>>;

/// A watch twice.
pub(crate) fn doubled<W: Watch + Copy>(watch: W) -> Pair<W, W>
    ensures both { result ≡ record { left = watch; right = watch } }
{
    Pair::new(watch, watch)
}

/// Twenty-three functions, each of a Still.
pub(crate) fn wide() -> Wide
    ensures twenty_three { ⟦<Wide as Watch>⟧.kind.width (⟦<Wide as Watch>⟧.state result) ≡ 23 }
{
    let two = doubled(Still::new());
    let four = doubled(two);
    let sixteen = doubled(doubled(four));
    Pair::new(sixteen, Pair::new(four, Pair::new(two, Still::new())))
}

pub fn wide_width() -> u32
    ensures as_wide_as_can_be { result ≡ 23 }
{
    wide().width()
}
