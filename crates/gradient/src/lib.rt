// The differenced gradient, coordinate by coordinate: what is probed, and what the probes give.
#![tactic(auto)]

ghost use Rattle.std.specs.Prelude.{◌+◌, ◌*◌, ◌≤◌, ◌<◌, ◌≡◌, length};
ghost use Rattle.definition.specs.Vector.{word};
ghost use Rattle.definition.specs.Gradient.{relative_step, plus_point, minus_point};
ghost use Rattle.definition.specs.Gradient.{both_quotient, right_quotient, left_quotient};
ghost use Rattle.area.specs.Area.{first_pair, vector_trial, vector_lower, vector_upper};
ghost use Rattle.problem.specs.Setups.{scheme_of};
ghost use Rattle.gradient.specs.Probing.{probes_in, step_for, taken_of, probes_by, probes_for};

use problem::{Options, Scheme};

// What is probed of a coordinate, with the points: right before left.
#[derive(Clone, Copy, Debug, PartialEq)]
pub enum Probes {
    Neither,
    Both(f64, f64),
    RightOnly(f64),
    LeftOnly(f64),
}

// A scheme's step at 1.
#[tactic(auto, using(float::proofs::Constants::root_epsilon_is, float::proofs::Constants::cube_root_epsilon_is))]
fn relative_step(scheme: Scheme) -> f64
    ensures { result ≡ relative_step (scheme_of scheme) }
{
    match scheme {
        Scheme::Forward => float::ROOT_EPSILON,
        Scheme::Central => float::CUBE_ROOT_EPSILON,
    }
}

// h, the difference step of a coordinate that stands at x.
fn difference_step(options: &Options, x: f64) -> f64
    ensures { result ≡ step_for options.now.eps (scheme_of options.now.scheme) x }
{
    options.eps.unwrap_or_else(|| relative_step(options.scheme) * float::max(float::abs(x), 1.0))
}

// A step h to the right, within the box, or the next float where it does not move and there is room.
// Kept: right and left are apart, since they differ in each operation: one form of both would take them all as parameters.
fn plus_point(h: f64, x: f64, high: f64) -> f64
    ensures { result ≡ plus_point h x high }
{
    let point = float::min(x + h, high);
    if point == x && x < high {
        float::min(float::next_up(x), high)
    } else {
        point
    }
}

// The same to the left.
fn minus_point(h: f64, x: f64, low: f64) -> f64
    ensures { result ≡ minus_point h x low }
{
    let point = float::max(x - h, low);
    if point == x && low < x {
        float::max(float::next_down(x), low)
    } else {
        point
    }
}

// The point, where it is finite and moves.
fn taken(point: f64, moves: bool) -> Option<f64>
    ensures { result ≡ taken_of point moves }
{
    (float::is_finite(point) && moves).then_some(point)
}

// Both sides under Central only; else the right one where it is taken.
fn probes_by(scheme: Scheme, right: Option<f64>, left: Option<f64>) -> Probes
    ensures { probes_in result ≡ probes_by right left (scheme_of scheme) }
{
    match (right, left, scheme) {
        (Some(plus), Some(minus), Scheme::Central) => Probes::Both(plus, minus),
        (Some(plus), _, _) => Probes::RightOnly(plus),
        (None, Some(minus), _) => Probes::LeftOnly(minus),
        (None, None, _) => Probes::Neither,
    }
}

// Coordinate x between its bounds: nothing where they are equal.
#[tactic(auto, using(crate::proofs::Laws::probes_by_is))]
fn probes_between(options: &Options, x: f64, low: f64, high: f64) -> Probes
    ensures { probes_in result ≡ probes_for options.now.eps (scheme_of options.now.scheme) x low high }
{
    if low == high {
        return Probes::Neither;
    }
    let h = difference_step(options, x);
    let plus = plus_point(h, x, high);
    let minus = minus_point(h, x, low);
    probes_by(
        options.scheme,
        taken(plus, x < plus),
        taken(minus, minus < x),
    )
}

// What is probed of coordinate i of the trial point.
pub fn probes_at(n: usize, options: &Options, area: &[f64], i: usize) -> Probes
    requires { (first_pair * n ≤ length area.now) × (i < n) }
    ensures { let a = area.now in probes_in result ≡ probes_for options.now.eps (scheme_of options.now.scheme)
        (word a (vector_trial * n + i)) (word a (vector_lower * n + i)) (word a (vector_upper * n + i)) }
{
    let x = area[area::TRIAL * n + i];
    let low = area[area::LOWER * n + i];
    let high = area[area::UPPER * n + i];
    probes_between(options, x, low, high)
}

// The quotient of both sides, by the step really taken.
pub fn both_quotient(right: f64, left: f64, right_value: f64, left_value: f64) -> f64
    ensures { result ≡ both_quotient right left right_value left_value }
{
    (right_value - left_value) / (right - left)
}

// The quotient of the right side alone: x stands for the left.
pub fn right_quotient(x: f64, value: f64, right: f64, right_value: f64) -> f64
    ensures { result ≡ right_quotient x value right right_value }
{
    both_quotient(right, x, right_value, value)
}

// The quotient of the left side alone: x stands for the right.
pub fn left_quotient(x: f64, value: f64, left: f64, left_value: f64) -> f64
    ensures { result ≡ left_quotient x value left left_value }
{
    both_quotient(x, left, value, left_value)
}
