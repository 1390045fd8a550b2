// From the point held to a trial: the tests of convergence, the trial point, and the start of the step search.
#![tactic(auto)]

ghost use Rattle.std.specs.Prelude.{◌≡◌, ◌*◌, ◌≤◌, ◌<◌, length, option_map, IfSome, Float};
ghost use Rattle.definition.specs.Search.{limit_of as limit_on, begin_search, trial_point};
ghost use Rattle.definition.specs.Driver.{projected_norm, gradient_small, decrease_small, try_step};
ghost use Rattle.area.specs.Area.{Vecs, bounds_of, view, upd, words_at, first_pair, vector_x, vector_g, vector_trial, vector_direction};
ghost use Rattle.compact.specs.State.{Sound};
ghost use Rattle.search.specs.State.{search_of, limit_of, Settled};
ghost use Rattle.fit.specs.State.{machine, machine_of, Steps};
ghost use Rattle.trial.specs.Words.{trial_in, projected_in, distance_in};

use fit::{Fit, Phase, Place};
use search::{Limit, Search};

// ---- convergence

// Coordinate i of the projected gradient, without its sign.
fn projected_at(area: &[f64], n: usize, i: usize) -> f64
    requires { (first_pair * n ≤ length area.now) × (i < n) }
    ensures { result ≡ projected_in (words_at area.now n i) }
{
    let g = area[area::G * n + i];
    let x = area[area::X * n + i];
    if 0.0 < g {
        return float::min(g, float::max(x - area[area::LOWER * n + i], 0.0));
    }
    float::min(-g, float::max(area[area::UPPER * n + i] - x, 0.0))
}

// `projected_norm` of the point held.
fn projected_norm(area: &[f64], n: usize) -> f64
    requires { first_pair * n ≤ length area.now }
    ensures { (f : Float) → result ≡ projected_norm n (bounds_of (view area.now n))
        (record { x = view area.now n vector_x; f = f; g = view area.now n vector_g }) }
{
    (0..n).fold(
        0.0,
        |largest, i| float::max(largest, projected_at(area, n, i)),
    )
}

// The test of gtol: equality passes.
pub fn gradient_small(fit: Fit, area: &[f64]) -> bool
    requires { Sound fit.shape (length area.now) }
    ensures { result ≡ gradient_small (machine_of fit area.now) }
{
    projected_norm(area, fit.shape.n) <= fit.limits.gtol
}

// The test of ftol, relative to the larger of the two values and 1: equality passes.
pub fn decrease_small(fit: Fit) -> bool
    ensures { (v : Vecs) → result ≡ decrease_small (machine fit v) }
{
    let old = fit.value_before;
    let new = fit.value;
    let scale = float::max(float::max(float::abs(old), float::abs(new)), 1.0);
    old - new <= fit.limits.ftol * scale
}

// ---- trials

// Coordinate i of the trial point.
fn trial_at(area: &[f64], n: usize, alpha: f64, i: usize) -> f64
    requires { (first_pair * n ≤ length area.now) × (i < n) }
    ensures { result ≡ trial_in alpha (words_at area.now n i) }
{
    let x = area[area::X * n + i];
    let d = area[area::DIRECTION * n + i];
    let low = area[area::LOWER * n + i];
    let high = area[area::UPPER * n + i];
    float::clamp(x + alpha * d, low, high)
}

// The trial point: the point held plus alpha times the direction, brought into the box.
fn put_trial(area: &mut [f64], n: usize, alpha: f64)
    requires { first_pair * n ≤ length area.old }
    ensures { view area.new n ≡ upd (view area.old n) vector_trial
        (trial_point n (bounds_of (view area.old n)) (view area.old n vector_x) (view area.old n vector_direction) alpha) }
{
    area::set_each(area, n, area::TRIAL, |area, i| trial_at(area, n, alpha, i));
}

// The next trial of a search: its value is asked.
pub fn try_step(fit: Fit, area: &mut [f64], search: Search) -> Fit
    requires { Sound fit.shape (length area.old) × Settled search }
    ensures { Steps (try_step (search_of search)) fit area.old result area.new }
{
    put_trial(area, fit.shape.n, search.step.alpha);
    fit::ask_value(Fit { search, ..fit }, Phase::Value(Place::Trial))
}

// ---- the search's start

// The step at which coordinate i meets its bound: infinity where it does not move.
fn distance_at(area: &[f64], n: usize, i: usize) -> f64
    requires { (first_pair * n ≤ length area.now) × (i < n) }
    ensures { result ≡ distance_in (words_at area.now n i) }
{
    let d = area[area::DIRECTION * n + i];
    let x = area[area::X * n + i];
    if 0.0 < d {
        return (area[area::UPPER * n + i] - x) / d;
    }
    if d < 0.0 {
        return (area[area::LOWER * n + i] - x) / d;
    }
    float::infinity()
}

// How far the box lets the step go.
fn limit_of(area: &[f64], n: usize) -> Limit
    requires { first_pair * n ≤ length area.now }
    ensures { limit_of result ≡ limit_on n (bounds_of (view area.now n)) (view area.now n vector_x) (view area.now n vector_direction) }
{
    let start = Limit {
        amax: float::STEP_LIMIT,
        face: false,
    };
    (0..n).fold(
        start,
        |limit, i| search::limited(distance_at(area, n, i), limit),
    )
}

// The first trial of a search, unless there is nothing to search.
#[tactic(auto, unfolding(definition::specs::Search::begin_search))]
pub fn begin_search(area: &[f64], n: usize) -> Option<Search>
    requires { first_pair * n ≤ length area.now }
    ensures trial { let v = view area.now n in
        option_map search_of result ≡ begin_search n (bounds_of v) (v vector_x) (v vector_g) (v vector_direction) }
    ensures settled { IfSome result Settled }
{
    let slope0 = area::dot(area, n, area::G, area::DIRECTION);
    if !float::is_finite(slope0) || !(slope0 < 0.0) {
        return None;
    }
    search::with_limit(slope0, limit_of(area, n))
}
