// What follows an iteration notice that is answered with "go on": the budget, convergence, the next iteration.
#![tactic(auto)]

ghost use Rattle.std.specs.Prelude.{◌≤◌, length};
ghost use Rattle.definition.specs.Problem.{most_coordinates};
ghost use Rattle.definition.specs.Driver.{on_go_on};
ghost use Rattle.compact.specs.State.{Sound};
ghost use Rattle.fit.specs.State.{Steps};

use counters::Termination;
use fit::Fit;

// The iteration budget before convergence, the gradient before the decrease.
pub fn on_go_on(fit: Fit, area: &mut [f64]) -> Fit
    requires { Sound fit.shape (length area.old) × (fit.shape.n ≤ most_coordinates) }
    ensures { Steps on_go_on fit area.old result area.new }
{
    if fit.counters.iterations_spent(fit.limits) {
        return fit::ended(fit, Termination::MaxIterations);
    }
    if trial::gradient_small(fit, area) {
        return fit::ended(fit, Termination::GTol);
    }
    if trial::decrease_small(fit) {
        return fit::ended(fit, Termination::FTol);
    }
    iteration::iterate(fit, area)
}
