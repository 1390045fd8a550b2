// The differenced gradient: from a value at a probe to the next probe, coordinate by coordinate, over the few numbers that it changes.
#![tactic(auto)]

ghost use Rattle.std.specs.Prelude.{◌≡◌, List, ◌-◌, ◌≤◌, ◌<◌, length, Float};
ghost use Rattle.definition.specs.Gradient.{both};
ghost use Rattle.definition.specs.Machine.{Phase as PhaseOf};
ghost use Rattle.definition.specs.Driver.{ask_value, probe_from, probed_to as probed_to_of, probed as probed_of, on_not_supplied, on_probe};
ghost use Rattle.gradient.specs.Probing.{probes_in};
ghost use Rattle.fit.specs.State.{place_of, side_of, Steps};
ghost use Rattle.compact.specs.State.{Sound};
ghost use Rattle.fit.specs.Ready.{Ready};
ghost use Rattle.differences.specs.Probing.{numbered, probing, Settles, reached, LeadsTo, unprobed, first_side};

use counters::{Counters, Termination};
use fit::{Extra, Fit, Phase, Place, Side};
use gradient::Probes;

// What a value at a probe changes of a fit: the probe that is asked, the value right of it, what is charged, and the log's numbers.
// Kept: apart from the fit that they travel with. With the whole fit handed on from probe to probe a reply took some 156 ns, and with these 25 to 30.
#[derive(Clone, Copy)]
pub struct Probing {
    pub i: usize,
    pub side: Side,
    pub right_value: f64,
    pub counters: Counters,
    pub extra: Extra,
}

// What follows: the next probe, the gradient complete, or the end of the fit; each with the numbers reached.
#[derive(Clone, Copy)]
pub enum Next {
    Probe(Probing),
    Complete(Probing),
    Ended(Probing, Termination),
}

// ---- the numbers of a fit

// Those of a fit, at the probe of coordinate i on a side.
pub fn numbers_of(fit: Fit, i: usize, side: Side) -> Probing
    ensures { (numbered fit.phase result fit ≡ fit) × (result.i ≡ i) × (result.side ≡ side) }
{
    Probing {
        i,
        side,
        right_value: fit.right_value,
        counters: fit.counters,
        extra: fit.extra,
    }
}

// The fit with other numbers.
fn with_numbers(fit: Fit, numbers: Probing) -> Fit
    ensures { result ≡ numbered fit.phase numbers fit }
{
    Fit {
        counters: numbers.counters,
        right_value: numbers.right_value,
        extra: numbers.extra,
        ..fit
    }
}

// The fit at a probe.
pub fn with_probe(fit: Fit, place: Place, numbers: Probing) -> Fit
    ensures { result ≡ probing place numbers fit }
{
    Fit {
        phase: Phase::Probe(place, numbers.i, numbers.side),
        ..with_numbers(fit, numbers)
    }
}

// ---- from probe to probe

fn is_unprobed(probes: Probes) -> bool
    ensures { result ≡ unprobed (probes_in probes) }
{
    matches!(probes, Probes::Neither)
}

// The side that is probed first.
fn first_side(probes: Probes) -> Side
    ensures { side_of result ≡ first_side (probes_in probes) }
{
    match probes {
        Probes::LeftOnly(_) => Side::Left,
        _ => Side::Right,
    }
}

// The probe of coordinate i on a side, unless the budget is spent.
fn ask_probe(fit: Fit, numbers: Probing, i: usize, side: Side) -> Next
    requires { i < fit.shape.n }
    ensures { (a : List Float) → LeadsTo (λ w. ask_value (PhaseOf.probe w i (side_of side))) numbers fit a result a }
{
    let mut counters = numbers.counters;
    if !counters.charge_value(fit.limits) {
        return Next::Ended(numbers, Termination::MaxEvaluations);
    }
    Next::Probe(Probing {
        i,
        side,
        counters,
        ..numbers
    })
}

// Coordinate i and those after it: 0 where nothing is probed, up to the first that is.
// Kept: an index. What is read and what is written stand in one lent slice.
fn probe_from(fit: Fit, numbers: Probing, i: usize, area: &mut [f64]) -> Next
    requires { Sound fit.shape (length area.old) × (i ≤ fit.shape.n) }
    ensures { LeadsTo (λ w. probe_from (fit.shape.n - i) w i) numbers fit area.old result area.new }
{
    let n = fit.shape.n;
    for j in i..n {
        let probes = gradient::probes_at(n, &fit.options, area, j);
        if !is_unprobed(probes) {
            return ask_probe(fit, numbers, j, first_side(probes));
        }
        area::put(area, n, area::TRIAL_GRADIENT, j, 0.0);
    }
    Next::Complete(numbers)
}

// The component of the gradient is known; on to the next coordinate.
fn probed_to(fit: Fit, numbers: Probing, component: f64, area: &mut [f64]) -> Next
    requires { Sound fit.shape (length area.old) × (numbers.i < fit.shape.n) }
    ensures { LeadsTo (λ w. probed_to_of w numbers.i component) numbers fit area.old result area.new }
{
    area::put(
        area,
        fit.shape.n,
        area::TRIAL_GRADIENT,
        numbers.i,
        component,
    );
    probe_from(fit, numbers, numbers.i + 1, area)
}

// The value at a probe of a coordinate that is probed on both sides: right before left.
fn both_probed(
    fit: Fit,
    numbers: Probing,
    right: f64,
    left: f64,
    value: f64,
    area: &mut [f64],
) -> Next
    requires { Sound fit.shape (length area.old) × (numbers.i < fit.shape.n) }
    ensures { LeadsTo (λ w. probed_of w numbers.i (both right left) (side_of numbers.side) value) numbers fit
        area.old result area.new }
{
    match numbers.side {
        Side::Right => {
            let next = Probing {
                right_value: value,
                ..numbers
            };
            ask_probe(fit, next, numbers.i, Side::Left)
        }
        Side::Left => {
            let component = gradient::both_quotient(right, left, numbers.right_value, value);
            probed_to(fit, numbers, component, area)
        }
    }
}

// The finite value at a probe, by what is probed.
fn probed(fit: Fit, numbers: Probing, probes: Probes, value: f64, area: &mut [f64]) -> Next
    requires { Sound fit.shape (length area.old) × (numbers.i < fit.shape.n) }
    ensures { LeadsTo (λ w. probed_of w numbers.i (probes_in probes) (side_of numbers.side) value) numbers fit
        area.old result area.new }
{
    let x = area[area::TRIAL * fit.shape.n + numbers.i];
    match probes {
        Probes::Neither => probed_to(fit, numbers, 0.0, area),
        Probes::Both(right, left) => both_probed(fit, numbers, right, left, value, area),
        Probes::RightOnly(right) => probed_to(
            fit,
            numbers,
            gradient::right_quotient(x, fit.trial_value, right, value),
            area,
        ),
        Probes::LeftOnly(left) => probed_to(
            fit,
            numbers,
            gradient::left_quotient(x, fit.trial_value, left, value),
            area,
        ),
    }
}

// From a value at a probe to what follows. A value that is not finite ends the fit.
pub fn next_probe(fit: Fit, numbers: Probing, value: f64, area: &mut [f64]) -> Next
    requires { Sound fit.shape (length area.old) × (numbers.i < fit.shape.n) }
    ensures { LeadsTo (λ w. on_probe w numbers.i (side_of numbers.side) value) numbers fit
        area.old result area.new }
{
    if !float::is_finite(value) {
        return Next::Ended(numbers, Termination::Nonfinite);
    }
    let probes = gradient::probes_at(fit.shape.n, &fit.options, area, numbers.i);
    probed(fit, numbers, probes, value, area)
}

// The fit at what follows; a gradient that is complete is judged.
pub fn settle(fit: Fit, place: Place, next: Next, area: &mut [f64]) -> Fit
    requires { Ready (numbered fit.phase (reached next) fit) (length area.old) }
    ensures { Settles place fit.phase fit area.old next result area.new }
{
    match next {
        Next::Probe(numbers) => with_probe(fit, place, numbers),
        Next::Complete(numbers) => judge::complete(with_numbers(fit, numbers), place, area),
        Next::Ended(numbers, why) => Fit {
            phase: Phase::Ended(why),
            ..with_numbers(fit, numbers)
        },
    }
}

// ---- replies

// Nothing supplied: the gradient is differenced, from coordinate 0 on.
pub fn on_not_supplied(fit: Fit, place: Place, area: &mut [f64]) -> Fit
    requires { Ready fit (length area.old) }
    ensures { Steps (on_not_supplied (place_of place)) fit area.old result area.new }
{
    area::fill(area, fit.shape.n, area::TRIAL_GRADIENT, 0.0);
    let next = probe_from(fit, numbers_of(fit, 0, Side::Right), 0, area);
    settle(fit, place, next, area)
}

// The value at a probe of coordinate i.
pub fn on_probe(fit: Fit, place: Place, i: usize, side: Side, value: f64, area: &mut [f64]) -> Fit
    requires { Ready fit (length area.old) × (i < fit.shape.n) }
    ensures { Steps (on_probe (place_of place) i (side_of side) value) fit area.old result area.new }
{
    let next = next_probe(fit, numbers_of(fit, i, side), value, area);
    settle(fit, place, next, area)
}
