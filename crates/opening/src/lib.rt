// The opening of a fit: its setup into options and area, and the machine at its first question.
#![tactic(auto)]

ghost use Rattle.std.specs.Prelude.{◌≡◌, ◌*◌, ◌≤◌, length};
ghost use Rattle.area.specs.Area.{view, upd, first_pair, vector_x};
ghost use Rattle.problem.specs.Setups.{setup_of};
ghost use Rattle.opening.specs.Opened.{setup_at, Room, Fits, boxed, clipped, first_vectors, First, Stored, Opened};

use compact::Shape;
use counters::Counters;
use fit::{Extra, Fit, Phase, Place};
use problem::{Options, Setup};

// Infinite bounds, where the setup has none.
#[tactic(auto, unfolding(area::specs::Area::fill_of, area::specs::Area::rowwise))]
fn open_box(area: &mut [f64], n: usize, bounded: bool)
    requires { first_pair * n ≤ length area.old }
    ensures { view area.new n ≡ boxed bounded n (view area.old n) }
{
    if !bounded {
        area::fill(area, n, area::LOWER, float::neg_infinity());
        area::fill(area, n, area::UPPER, float::infinity());
    }
}

// The start brought into the box.
fn clip_start(area: &mut [f64], n: usize)
    requires { first_pair * n ≤ length area.old }
    ensures { let before = view area.old n in view area.new n ≡ upd before vector_x (clipped n before) }
{
    area::set_each(area, n, area::X, |area, i| {
        let x0 = area[area::X0 * n + i];
        let low = area[area::LOWER * n + i];
        let high = area[area::UPPER * n + i];
        float::clamp(x0, low, high)
    });
}

// Every vector that is read before it is next written.
fn first_vectors(area: &mut [f64], n: usize)
    requires { first_pair * n ≤ length area.old }
    ensures { view area.new n ≡ first_vectors n (view area.old n) }
{
    clip_start(area, n);
    area::copy(area, n, area::TRIAL, area::X);
    area::fill(area, n, area::G, 0.0);
    area::fill(area, n, area::TRIAL_GRADIENT, 0.0);
    area::fill(area, n, area::DIRECTION, 0.0);
}

// The state at the first question.
#[tactic(auto, unfolding(compact::specs::State::pairs_of, definition::specs::Vector::tab))]
fn first_fit(options: Options, n: usize) -> Fit
    ensures { First options n result }
{
    Fit {
        shape: Shape {
            n,
            m: options.places(),
            pairs: 0,
            oldest: 0,
        },
        options,
        limits: options.limits(),
        counters: Counters::first(),
        phase: Phase::Value(Place::Start),
        search: search::no_search(),
        value: 0.0,
        trial_value: 0.0,
        right_value: 0.0,
        value_before: 0.0,
        theta: 1.0,
        extra: Extra::default(),
    }
}

// From the setup that stands in options and area, whatever else the area holds.
pub fn reset(options: Options, area: &mut [f64], n: usize) -> Fit
    requires { Room options n (length area.old) }
    ensures { Opened options n (setup_at options (view area.old n)) area.old result area.new }
{
    open_box(area, n, options.bounded);
    first_vectors(area, n);
    first_fit(options, n)
}

// A setup's vectors into the area: the bounds only where they count.
fn store_setup(area: &mut [f64], setup: Setup)
    requires long { first_pair * length setup.x0.now ≤ length area.old }
    requires fits { Fits setup.options (length setup.x0.now) setup.lower.now setup.upper.now }
    ensures { let s = setup.entry in let n = length s.x0.now in
        Stored s.options.bounded s.x0.now s.lower.now s.upper.now (view area.old n) (view area.new n) }
{
    let n = setup.x0.len();
    area::store(area, n, area::X0, setup.x0);
    if setup.options.bounded {
        area::store(area, n, area::LOWER, setup.lower);
        area::store(area, n, area::UPPER, setup.upper);
    }
}

// From a setup: no word of the area that is ever read stays from before.
pub fn begin(setup: Setup, area: &mut [f64]) -> Fit
    requires room { Room setup.options (length setup.x0.now) (length area.old) }
    requires fits { Fits setup.options (length setup.x0.now) setup.lower.now setup.upper.now }
    ensures { let s = setup.entry in Opened s.options (length s.x0.now) (setup_of s) area.old result area.new }
{
    store_setup(area, setup);
    reset(setup.options, area, setup.x0.len())
}
