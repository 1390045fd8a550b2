// One iteration of the driver: the model, the direction that it gives, and the first trial along it.
#![tactic(auto)]

ghost use Rattle.std.specs.Prelude.{◌≤◌, length};
ghost use Rattle.definition.specs.Problem.{most_coordinates};
ghost use Rattle.definition.specs.Driver.{search_along, towards as towards_of, without_pairs, descend as descend_of, iterate as iterate_of};
ghost use Rattle.area.specs.Area.{view};
ghost use Rattle.compact.specs.State.{Sound};
ghost use Rattle.fit.specs.State.{Steps};
ghost use Rattle.subspace.specs.State.{ends_in};
ghost use Rattle.iteration.specs.Model.{Offers};

use compact::{Model, Shape};
use counters::Termination;
use fit::Fit;

// ---- the model

// The Cauchy point and the target, in their vectors: the columns are laid out, and the block is built and factored once.
// Kept: a bool. An `Option` would hold both by value, and what reads them looks in the area.
fn model(area: &mut [f64], shape: Shape, theta: f64) -> bool
    requires { Sound shape (length area.old) × (shape.n ≤ most_coordinates) }
    ensures { Offers shape theta (view area.old shape.n) result (view area.new shape.n) }
{
    let mut model = Model::new(shape, theta);
    model.build(area);
    cauchy::generalized_cauchy(area, &model) && subspace::primal_minimize(area, &model)
}

// ---- the direction, and the first trial along it

// The run ends here unless the search hands back a step.
fn search_along(fit: Fit, area: &mut [f64]) -> Fit
    requires { Sound fit.shape (length area.old) }
    ensures { Steps search_along fit area.old result area.new }
{
    let Some(first) = trial::begin_search(area, fit.shape.n) else {
        return fit::ended(fit, Termination::LineSearchFailed);
    };
    trial::try_step(fit, area, first)
}

// Along the direction to the end chosen.
fn towards(fit: Fit, area: &mut [f64]) -> Fit
    requires { Sound fit.shape (length area.old) × (fit.shape.n ≤ most_coordinates) }
    ensures { Steps (towards_of (ends_in (view area.old fit.shape.n))) fit area.old result area.new }
{
    subspace::set_direction(area, fit.shape.n);
    search_along(fit, area)
}

// The pairs are dropped for good, and the model is tried once more.
fn without_pairs(fit: Fit, area: &mut [f64]) -> Fit
    requires { Sound fit.shape (length area.old) × (fit.shape.n ≤ most_coordinates) }
    ensures { Steps without_pairs fit area.old result area.new }
{
    let shape = Shape {
        pairs: 0,
        oldest: 0,
        ..fit.shape
    };
    let bare = Fit {
        shape,
        theta: 1.0,
        ..fit
    };
    if model(area, shape, 1.0) {
        return towards(bare, area);
    }
    fit::ended(bare, Termination::LineSearchFailed)
}

// The direction and the first trial along it.
fn descend(fit: Fit, area: &mut [f64]) -> Fit
    requires { Sound fit.shape (length area.old) × (fit.shape.n ≤ most_coordinates) }
    ensures { Steps descend_of fit area.old result area.new }
{
    if model(area, fit.shape, fit.theta) {
        return towards(fit, area);
    }
    if fit.shape.pairs == 0 {
        return fit::ended(fit, Termination::LineSearchFailed);
    }
    without_pairs(fit, area)
}

// One iteration, unless the gradient is small.
pub fn iterate(fit: Fit, area: &mut [f64]) -> Fit
    requires { Sound fit.shape (length area.old) × (fit.shape.n ≤ most_coordinates) }
    ensures { Steps iterate_of fit area.old result area.new }
{
    if trial::gradient_small(fit, area) {
        return fit::ended(fit, Termination::GTol);
    }
    descend(fit, area)
}
