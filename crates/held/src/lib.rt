// What state, area and log hold between two calls: the test for a held fit, the mark, and the state that holds none.
#![tactic(auto)]

ghost use Rattle.std.specs.Prelude.{◌≡◌, true, false, ◌≤◌, List, Float, length};
ghost use Rattle.definition.specs.Problem.{most_coordinates, most_pairs};
ghost use Rattle.held.specs.Test.{mark_at, shape_held, counts_held, log_held, phase_held, is_ready, is_held, Marks};

use compact::Shape;
use counters::Counters;
use fit::{Extra, Fit, Phase};
use problem::Limits;

// ---- the held test

// The shape is in range, and the area long enough for it.
fn shape_held(shape: Shape, size: usize) -> bool
    ensures { result ≡ shape_held shape size }
{
    0 < shape.n
        && shape.n <= problem::MOST_COORDINATES
        && 0 < shape.m
        && shape.m <= problem::MOST_PAIRS
        && shape.pairs <= shape.m
        && shape.oldest < shape.m
        && area::words(shape.n, shape.m) <= size
}

fn counts_held(counters: Counters) -> bool
    ensures { result ≡ counts_held counters }
{
    counters.nit < counters::MOST_COUNTED && counters.njev < counters::MOST_COUNTED
}

fn log_held(extra: Extra) -> bool
    ensures { result ≡ log_held extra.entries extra.words }
{
    extra.entries < fit::MOST_WORDS && extra.words < fit::MOST_WORDS
}

// A probe is of a coordinate that there is.
fn phase_held(phase: Phase, n: usize) -> bool
    ensures { result ≡ phase_held phase n }
{
    match phase {
        Phase::Probe(_, i, _) => i < n,
        _ => true,
    }
}

// Whether a state can be advanced with an area of `size` words, for any words at all.
#[tactic(auto, unfolding(crate::specs::Test::is_ready))]
pub fn is_ready(fit: Fit, size: usize) -> bool
    ensures { result ≡ is_ready fit size }
{
    shape_held(fit.shape, size)
        && fit.options.places() == fit.shape.m
        && counts_held(fit.counters)
        && log_held(fit.extra)
        && phase_held(fit.phase, fit.shape.n)
}

// Where the mark stands: behind the vectors.
fn mark_at(shape: Shape) -> usize
    requires { (shape.n ≤ most_coordinates) × (shape.m ≤ most_pairs) }
    ensures { result ≡ mark_at shape }
{
    (area::FIRST_PAIR + 4 * shape.m) * shape.n
}

// Whether state and area hold a fit, for any words at all: the mark behind the vectors is 1, which no area of zeros has.
#[tactic(auto, unfolding(crate::specs::Test::is_held))]
pub fn is_held(fit: Fit, area: &[f64]) -> bool
    ensures { result ≡ is_held fit area.now }
{
    is_ready(fit, area.len()) && area[mark_at(fit.shape)] == 1.0
}

// Marks the area as holding a fit.
pub fn mark(area: &mut [f64], shape: Shape)
    requires { shape_held shape (length area.old) ≡ true }
    ensures { Marks shape area.old area.new }
{
    area[mark_at(shape)] = 1.0;
}

// ---- the state that holds no fit

// A state that holds no fit, with any area.
pub fn empty() -> Fit
    ensures { (a : List Float) → is_held result a ≡ false }
{
    Fit {
        shape: Shape {
            n: 0,
            m: 0,
            pairs: 0,
            oldest: 0,
        },
        options: problem::no_options(),
        limits: Limits::default(),
        counters: Counters::default(),
        phase: Phase::Notice,
        search: search::no_search(),
        value: 0.0,
        trial_value: 0.0,
        right_value: 0.0,
        value_before: 0.0,
        theta: 0.0,
        extra: Extra::default(),
    }
}
