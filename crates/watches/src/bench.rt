// The bench's watch: three kinds in two pairs.
ghost use Rattle.std.specs.Prelude.{◌≡◌};
ghost use Rattle.watches.specs.Benches.{new_watch};

use crate::band::Band;
use crate::moving::Moving;
use crate::pair::Pair;
use crate::still::Still;
use crate::watch::Watch;

/// Function 1 is the Still's, 2 the Moving's, 3 the Band's.
pub type BenchWatch = Pair<Still, Pair<Moving, Band>>;

/// A Still, a Moving, and a Band of 100 to 200.
pub fn bench_watch() -> BenchWatch
    ensures all_three_new { ⟦<BenchWatch as Watch>⟧.state result ≡ new_watch }
{
    Pair::new(Still::new(), Pair::new(Moving::new(), Band::new(100, 200)))
}
