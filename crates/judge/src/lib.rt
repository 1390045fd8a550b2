// The value at a place, and its gradient once that is complete: the trial is accepted and its pair kept, or the search goes on.
#![tactic(auto)]

ghost use Rattle.std.specs.Prelude.{◌≡◌, ◌≤◌, ◌<◌, length};
ghost use Rattle.definition.specs.Problem.{most_coordinates};
ghost use Rattle.definition.specs.Machine.{holding};
ghost use Rattle.definition.specs.Driver.{on_value, learn as learn_of, move as move_of, judge_trial, measured as measured_of, complete as complete_of};
ghost use Rattle.counters.specs.Counts.{most_counted};
ghost use Rattle.compact.specs.State.{Sound};
ghost use Rattle.fit.specs.State.{place_of, Turns, Steps};
ghost use Rattle.fit.specs.Ready.{Ready};

use counters::Termination;
use fit::{Fit, Phase, Place};
use search::Verdict;

// ---- the value

// A value that is not finite ends the fit; else the gradient is asked.
pub fn on_value(fit: Fit, place: Place, value: f64) -> Fit
    ensures { Turns (on_value (place_of place) value) fit result }
{
    let valued = fit::valued(fit, place, value);
    if float::is_finite(value) {
        fit::with_phase(valued, Phase::Gradient(place))
    } else {
        fit::ended(valued, Termination::Nonfinite)
    }
}

// ---- the gradient

// The pair that the step gives is kept, if it is acceptable.
fn learn(fit: Fit, area: &mut [f64]) -> Fit
    requires { Sound fit.shape (length area.old) }
    ensures { Steps learn_of fit area.old result area.new }
{
    let n = fit.shape.n;
    area::difference(area, n, area::VELOCITY, area::TRIAL, area::X);
    area::difference(area, n, area::DISPLACEMENT, area::TRIAL_GRADIENT, area::G);
    let updated = compact::update(area, fit.shape, fit.theta);
    Fit {
        shape: updated.shape,
        theta: updated.theta,
        ..fit
    }
}

// The trial's point, value and gradient are held.
fn hold(fit: Fit, area: &mut [f64]) -> Fit
    requires { Sound fit.shape (length area.old) }
    ensures { Steps (λ m. holding m.trial m) fit area.old result area.new }
{
    let n = fit.shape.n;
    area::copy(area, n, area::X, area::TRIAL);
    area::copy(area, n, area::G, area::TRIAL_GRADIENT);
    Fit {
        value: fit.trial_value,
        ..fit
    }
}

// The driver moves to the trial and gives notice.
fn move_on(fit: Fit, area: &mut [f64]) -> Fit
    requires { Sound fit.shape (length area.old) × (fit.counters.nit < most_counted) }
    ensures { Steps move_of fit area.old result area.new }
{
    let mut counters = fit.counters;
    counters.charge_iteration();
    Fit {
        phase: Phase::Notice,
        counters,
        value_before: fit.value,
        ..hold(fit, area)
    }
}

// A trial with its gradient: the run ends here unless the search hands back a step.
// Kept: a rule of the project, that a run ends by `let .. else` on the search's enum.
fn judge_trial(fit: Fit, area: &mut [f64]) -> Fit
    requires { Sound fit.shape (length area.old) × (fit.counters.nit < most_counted) }
    ensures { Steps judge_trial fit area.old result area.new }
{
    let slope = area::dot(area, fit.shape.n, area::TRIAL_GRADIENT, area::DIRECTION);
    let verdict = search::judge(fit.search, fit.value, fit.trial_value, slope);
    if let Verdict::Accepted = verdict {
        let learnt = learn(fit, area);
        return move_on(learnt, area);
    }
    let Verdict::Another(next) = verdict else {
        return fit::ended(fit, Termination::LineSearchFailed);
    };
    trial::try_step(fit, area, next)
}

// At the start the driver begins to iterate; a trial is judged.
fn measured(fit: Fit, place: Place, area: &mut [f64]) -> Fit
    requires { Sound fit.shape (length area.old) × (fit.counters.nit < most_counted) × (fit.shape.n ≤ most_coordinates) }
    ensures { Steps (measured_of (place_of place)) fit area.old result area.new }
{
    match place {
        Place::Start => {
            let held = hold(fit, area);
            iteration::iterate(held, area)
        }
        Place::Trial => judge_trial(fit, area),
    }
}

// A gradient, supplied or differenced, counts before it is looked at.
pub fn complete(fit: Fit, place: Place, area: &mut [f64]) -> Fit
    requires { Ready fit (length area.old) }
    ensures { Steps (complete_of (place_of place)) fit area.old result area.new }
{
    let mut counters = fit.counters;
    counters.charge_gradient();
    let next = Fit { counters, ..fit };
    if area::all_finite(area, fit.shape.n, area::TRIAL_GRADIENT) {
        measured(next, place, area)
    } else {
        fit::ended(next, Termination::Nonfinite)
    }
}
