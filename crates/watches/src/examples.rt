// Worked examples on watches: each function answers by its own rule, also in a pair.
ghost use Rattle.std.specs.Prelude.{◌≡◌};
ghost use Rattle.watches.specs.Examples.{answers_in_turn, state_in_turn, ThreeFunctions, StillSees5_5_6_6, MovingSees7_8_8_9, BandSees100_200_201_99, CrossedBandSees99_100_200_201, OnlyFunction1InTrouble};

use crate::band::Band;
use crate::bench::bench_watch;
use crate::watch::Watch;

/// Shows one function of any watch values in turn.
pub fn see_in_turn<W: Watch, const N: usize>(
    watch: &mut W,
    function: u32,
    values: [u32; N],
) -> [Option<bool>; N]
    ensures answers { result ≡ answers_in_turn W.kind (W.state watch.old) function values.entry }
    ensures after { W.state watch.new ≡ state_in_turn W.kind (W.state watch.old) function values.entry }
{
    // Kept: a `map` whose closure changes the watch leaves no word of the watch afterwards.
    let mut answers = [None; N];
    for (place, value) in values.iter().enumerate() {
        answers[place] = watch.see(function, *value);
    }
    answers
}

pub fn width_and_outside() -> (u32, Option<bool>, Option<bool>)
    ensures three_functions { ThreeFunctions result }
{
    let mut watch = bench_watch();
    (watch.width(), watch.see(0, 5), watch.see(4, 5))
}

pub fn still_answers() -> [Option<bool>; 4]
    ensures trouble_at_a_change { StillSees5_5_6_6 result }
{
    see_in_turn(&mut bench_watch(), 1, [5, 5, 6, 6])
}

pub fn moving_answers() -> [Option<bool>; 4]
    ensures trouble_at_a_repeat { MovingSees7_8_8_9 result }
{
    see_in_turn(&mut bench_watch(), 2, [7, 8, 8, 9])
}

pub fn band_answers() -> [Option<bool>; 4]
    ensures trouble_past_its_limits { BandSees100_200_201_99 result }
{
    see_in_turn(&mut bench_watch(), 3, [100, 200, 201, 99])
}

pub fn crossed_band_answers() -> [Option<bool>; 4]
    ensures always_trouble { CrossedBandSees99_100_200_201 result }
{
    see_in_turn(&mut Band::new(200, 100), 1, [99, 100, 200, 201])
}

pub fn states_after() -> [bool; 5]
    ensures others_as_before { OnlyFunction1InTrouble result }
{
    let mut watch = bench_watch();
    see_in_turn(&mut watch, 1, [5, 5, 6, 7]);
    let functions: [u32; 5] = [0, 1, 2, 3, 4];
    functions.map(|function| watch.in_trouble(function))
}
