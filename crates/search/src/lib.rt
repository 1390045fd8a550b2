// The step search along a direction: one record from question to question, and what it hands back after a trial.
#![tactic(auto)]

ghost use Rattle.std.specs.Prelude.{not, cond, ◌&&◌, ◌||◌, ◌≡◌, Some, option_map, IfSome};
ghost use Rattle.std.specs.Float.Ieee as Ieee;
ghost use Rattle.definition.specs.Number.{zero64};
ghost use Rattle.definition.specs.Search.{limited as limited_of, with_limit, decreases as decreases_of, flat as flat_of, on_face};
ghost use Rattle.definition.specs.Search.{following as following_of, goes_on, next_trial, judge as judge_of};
ghost use Rattle.definition.specs.Driver.{no_search};
ghost use Rattle.search.specs.State.{search_of, limit_of, verdict_of, Settled, VerdictSettled};

// The step, the two ends, the slope at the point held and the limit of the step.
// Kept: a rule of the project, that the search is a record of floats by value with the trial count beside it.
#[derive(Clone, Copy, Debug, Default)]
pub struct Step {
    pub alpha: f64,
    pub low: f64,
    pub high: f64,
    pub slope0: f64,
    pub amax: f64,
}

// The number of the trial, whether the limit is where a bound is met, and whether there is a high end.
// Kept: flags beside the floats. By that rule the record is of floats alone: an absent high end stands there as 0.
#[derive(Clone, Copy, Debug, Default)]
pub struct Trials {
    pub count: usize,
    pub face: bool,
    pub bracketed: bool,
}

// The search: its record of floats, and the trials beside it.
#[derive(Clone, Copy, Debug, Default)]
pub struct Search {
    pub step: Step,
    pub trials: Trials,
}

// What the search hands back: the step is accepted, another trial, or it has failed.
#[derive(Clone, Copy, Debug)]
pub enum Verdict {
    Accepted,
    Another(Search),
    Failed,
}

// How far the box lets the step go.
#[derive(Clone, Copy, Debug)]
pub struct Limit {
    pub amax: f64,
    pub face: bool,
}

// The most trials of a search.
const SEARCH_TRIALS: usize = 60;

// ---- the start

// The search of a fit that has not begun one.
pub fn no_search() -> Search
    ensures { (search_of result ≡ no_search) × Settled result }
{
    Search::default()
}

// The limit, after a coordinate that meets its bound at a step: an equal step is taken too.
pub fn limited(distance: f64, limit: Limit) -> Limit
    ensures { limit_of result ≡ limited_of distance (limit_of limit) }
{
    if float::is_finite(distance) && distance <= limit.amax {
        return Limit {
            amax: distance,
            face: true,
        };
    }
    limit
}

// The first trial within the limit, unless there is nothing to search.
pub fn with_limit(slope0: f64, limit: Limit) -> Option<Search>
    ensures trial { option_map search_of result ≡ with_limit slope0 (limit_of limit) }
    ensures settled { IfSome result Settled }
{
    if !float::is_finite(limit.amax) || !(0.0 < limit.amax) {
        return None;
    }
    let step = Step {
        alpha: float::min(1.0, limit.amax),
        slope0,
        amax: limit.amax,
        ..Step::default()
    };
    let trials = Trials {
        count: 1,
        face: limit.face,
        bracketed: false,
    };
    Some(Search { step, trials })
}

// ---- after a trial: the value held, and value and slope at the trial

// The decrease test: equality passes.
#[tactic(auto, using(float::proofs::Constants::c1_is))]
fn decreases(search: Search, held: f64, value: f64) -> bool
    ensures { result ≡ decreases_of (search_of search) held value }
{
    value <= held + ((float::C1 * search.step.alpha) * search.step.slope0)
}

// The slope test: equality passes.
#[tactic(auto, using(float::proofs::Constants::constants))]
fn flat(search: Search, slope: f64) -> bool
    ensures { result ≡ flat_of (search_of search) slope }
{
    float::abs(slope) <= float::C2 * float::abs(search.step.slope0)
}

// The limiting face is reached, with a lower value.
fn on_face(search: Search, held: f64, value: f64) -> bool
    ensures { result ≡ on_face (search_of search) held value }
{
    search.trials.face && search.step.alpha == search.step.amax && value < held
}

// The ends between which the next trial is made; no high end is known yet where the second is absent.
#[derive(Clone, Copy)]
struct Ends {
    low: f64,
    high: Option<f64>,
}

// The ends where the trial becomes the high one.
fn below_trial(search: Search) -> Ends
    ensures { (result.low ≡ (search_of search).low) × (result.high ≡ Some (search_of search).alpha) }
{
    Ends {
        low: search.step.low,
        high: Some(search.step.alpha),
    }
}

// The ends where the trial becomes the low one.
fn above_trial(search: Search) -> Ends
    ensures { (result.low ≡ (search_of search).alpha) × (result.high ≡ (search_of search).high) }
{
    Ends {
        low: search.step.alpha,
        high: search.trials.bracketed.then_some(search.step.high),
    }
}

// The step after this one: between the ends, or twice as far up to the limit.
#[tactic(auto, using(float::proofs::Constants::two_is, float::proofs::Constants::half_is))]
fn following(search: Search, ends: Ends) -> f64
    ensures { result ≡ following_of (search_of search) ends.low ends.high }
{
    match ends.high {
        Some(high) => (ends.low + high) * 0.5,
        None => float::min(search.step.alpha * 2.0, search.step.amax),
    }
}

// Another trial is made unless the step would stay, be 0, or be one too many.
fn goes_on(search: Search, next: f64) -> bool
    ensures { result ≡ goes_on (search_of search) next }
{
    !(next == search.step.alpha || next == 0.0 || SEARCH_TRIALS <= search.trials.count)
}

// The trial between the ends: an absent high end stands as 0.
fn next_trial(search: Search, ends: Ends) -> Option<Search>
    ensures trial { let s = search_of search in
        option_map search_of result ≡ next_trial s ends.low ends.high (following_of s ends.low ends.high) }
    ensures settled { IfSome result Settled }
{
    let next = following(search, ends);
    if !goes_on(search, next) {
        return None;
    }
    let step = Step {
        alpha: next,
        low: ends.low,
        high: ends.high.unwrap_or(0.0),
        ..search.step
    };
    let trials = Trials {
        count: search.trials.count + 1,
        bracketed: ends.high.is_some(),
        ..search.trials
    };
    Some(Search { step, trials })
}

// What the search hands back after a trial. The decrease test is made once.
#[tactic(auto, unfolding(definition::specs::Search::accepts, definition::specs::Search::after_trial))]
pub fn judge(search: Search, held: f64, value: f64, slope: f64) -> Verdict
    ensures { (verdict_of result ≡ judge_of (search_of search) held value slope) × VerdictSettled result }
{
    let decrease = decreases(search, held, value);
    if decrease && (flat(search, slope) || on_face(search, held, value)) {
        return Verdict::Accepted;
    }
    let ends = if !decrease || 0.0 <= slope {
        below_trial(search)
    } else {
        above_trial(search)
    };
    match next_trial(search, ends) {
        Some(next) => Verdict::Another(next),
        None => Verdict::Failed,
    }
}
