// The definition's numbers in code: words and floats, their order and neighbours, the constants.
#![tactic(auto)]

ghost use Rattle.std.specs.Prelude.{◌≡◌};
ghost use Rattle.std.specs.Float.Ieee.{is_nan};
ghost use Rattle.std.specs.Float.Ieee.Scale.{finite};
ghost use Rattle.definition.specs.Number.{to_float, to_word, total_key, total_le, up_bits, down_bits, next_up, next_down, neg_infinity};
ghost use Rattle.definition.specs.Number.{infinity as infinity_of, abs as abs_of, min as min_of, max as max_of, clamp as clamp_of};

use std::num::{f64_from_bits_with_nan, f64_to_bits_with_nan};

// Where a sum starts: added to any term it leaves the term as it is.
pub const NEG_ZERO: f64 = -0.0;

// 2^-52, the step from 1.0 to the next float.
pub const EPSILON: f64 = f64::EPSILON;

// Its square root, 2^-26: the step of forward differences.
pub const ROOT_EPSILON: f64 = 1.4901161193847656e-8;

// The float nearest to its cube root: the step of central differences.
pub const CUBE_ROOT_EPSILON: f64 = 6.0554544523933395e-6;

// What a pivot must exceed, in units of the matrix's scale.
pub const PIVOT_THRESHOLD: f64 = 64.0 * EPSILON;

// The tolerances of value and gradient where none is given.
pub const DEFAULT_FTOL: f64 = 1e-9;

pub const DEFAULT_GTOL: f64 = 1e-5;

// The share of the slope that a step must gain, and the share that it may leave.
pub const C1: f64 = 1e-4;

pub const C2: f64 = 0.9;

// Where the limit of a step starts.
pub const STEP_LIMIT: f64 = 1e10;

// The sign's bit.
const SIGN_BIT: u64 = 0x8000_0000_0000_0000;

// The two infinities of the definition: these contracts tie std's to them, once for every caller.
// Kept: two functions. One of both would be given the sign, and is no shorter.
pub fn infinity() -> f64
    ensures { result ≡ infinity_of }
{
    f64::INFINITY
}

pub fn neg_infinity() -> f64
    ensures { result ≡ neg_infinity }
{
    f64::NEG_INFINITY
}

pub fn is_nan(x: f64) -> bool
    ensures { result ≡ is_nan x }
{
    x.is_nan()
}

// The float of any word.
pub fn word_to_float(word: u64) -> f64
    ensures { result ≡ to_float word }
{
    f64_from_bits_with_nan(word)
}

// The word of any float: one word for every NaN.
pub fn float_to_word(x: f64) -> u64
    ensures { result ≡ to_word x }
{
    f64_to_bits_with_nan(x)
}

pub fn abs(x: f64) -> f64
    ensures { result ≡ abs_of x }
{
    x.abs()
}

pub fn is_finite(x: f64) -> bool
    ensures { result ≡ finite x }
{
    x.is_finite()
}

// The smaller of two: a NaN is passed over, and of equal values the first is taken.
// Kept: `f64::min` leaves open which of 0.0 and -0.0 it answers.
pub fn min(first: f64, second: f64) -> f64
    ensures { result ≡ min_of first second }
{
    if first.is_nan() || second < first {
        second
    } else {
        first
    }
}

// The larger of two, by the same rules.
// Kept: `f64::max` leaves open which of 0.0 and -0.0 it answers.
pub fn max(first: f64, second: f64) -> f64
    ensures { result ≡ max_of first second }
{
    if first.is_nan() || first < second {
        second
    } else {
        first
    }
}

// x, brought between low and high. A NaN stays.
// Kept: `f64::clamp` requires that low is at most high.
pub fn clamp(x: f64, low: f64, high: f64) -> f64
    ensures { result ≡ clamp_of x low high }
{
    if x < low {
        return low;
    }
    if high < x { high } else { x }
}

// The next float above. A NaN stays.
pub fn next_up(x: f64) -> f64
    ensures { result ≡ next_up x }
{
    x.next_up()
}

// The next float below. A NaN stays.
pub fn next_down(x: f64) -> f64
    ensures { result ≡ next_down x }
{
    x.next_down()
}

// A number that stands in the order of `total_cmp`.
fn total_key(x: f64) -> u64
    ensures { result ≡ total_key x }
{
    let word = float_to_word(x);
    if word < SIGN_BIT {
        word + SIGN_BIT
    } else {
        0xFFFF_FFFF_FFFF_FFFF - word
    }
}

// Whether the first stands before the second, or level with it, in the order of `total_cmp`.
// Kept: `f64::total_cmp` requires that neither is a NaN.
pub fn total_le(first: f64, second: f64) -> bool
    ensures { result ≡ total_le first second }
{
    total_key(first) <= total_key(second)
}
