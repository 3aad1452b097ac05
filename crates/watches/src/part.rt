// Which part of a pair has a function.
ghost use Rattle.std.specs.Prelude.{◌≡◌};
ghost use Rattle.watches.specs.Pairs.{pair_width, part_of};

use crate::watch::has_function;

/// No watch has more functions.
const WIDEST: u32 = 23;

/// The part that has a function of a pair, with the function's number there.
#[derive(Clone, Copy)]
pub enum Part {
    Left(u32),
    Right(u32),
}

pub fn pair_width(left: u32, right: u32) -> u32
    ensures sum_up_to_23 { result ≡ pair_width left right }
{
    left.saturating_add(right).min(WIDEST)
}

/// Finds a function in a pair of parts of these widths.
pub fn part_of(left: u32, right: u32, function: u32) -> Option<Part>
    ensures left_functions_first { result ≡ part_of left right function }
{
    if !has_function(pair_width(left, right), function) {
        return None;
    }
    Some(if function <= left {
        Part::Left(function)
    } else {
        Part::Right(function - left)
    })
}
