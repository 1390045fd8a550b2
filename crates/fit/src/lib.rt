// The state of a fit, by value, and the steps that touch no vector.
#![tactic(auto)]

ghost use Rattle.std.specs.Prelude.{◌≡◌, ◌+◌, ◌<◌, Some};
ghost use Rattle.definition.specs.Machine.{kind_of, ending};
ghost use Rattle.definition.specs.Driver.{ask_value, valued as valued_of};
ghost use Rattle.counters.specs.Counts.{termination_of};
ghost use Rattle.fit.specs.State.{kind_number, with_phase, usizes, more_kept, with_extra, phase_of, place_of, Turns};

use compact::Shape;
use counters::{Counters, Termination};
use problem::{Limits, Options};
use search::Search;

// Where a value and a gradient are asked: at the start, or at a trial of the search.
#[derive(Clone, Copy, Debug, PartialEq, Eq)]
pub enum Place {
    Start,
    Trial,
}

#[derive(Clone, Copy, Debug, PartialEq, Eq)]
pub enum Side {
    Right,
    Left,
}

// What is asked: the value at a place, its gradient, the value at a probe of a coordinate, the notice; or nothing more.
#[derive(Clone, Copy, Debug, PartialEq, Eq)]
pub enum Phase {
    Value(Place),
    Gradient(Place),
    // Kept: coordinate and side apart. The definition has them so, and a struct of both would be taken apart at each use.
    Probe(Place, usize, Side),
    Notice,
    Ended(Termination),
}

// The kind of a question.
#[derive(Clone, Copy, Debug, PartialEq, Eq)]
pub enum Kind {
    Value = 1,
    Gradient = 2,
    Notice = 3,
}

// What is counted of the log, and not the machine's: the entries kept, and their words.
#[derive(Clone, Copy, Debug, Default, PartialEq, Eq)]
pub struct Extra {
    pub entries: usize,
    pub words: usize,
}

// The log's numbers are below this: not near where a sum would wrap, in bytes.
pub const MOST_WORDS: usize = 0x0100_0000_0000_0000;

// The state of a fit but for its vectors, which stand in the area.
// Kept: the state goes by value with the area lent beside it, since the C interface and the exported operations have it so.
#[derive(Clone, Copy)]
pub struct Fit {
    pub shape: Shape,
    pub options: Options,
    pub limits: Limits,
    pub counters: Counters,
    pub phase: Phase,
    pub search: Search,
    // the values held, at the trial, right of the probed coordinate, and held before the last move
    pub value: f64,
    pub trial_value: f64,
    pub right_value: f64,
    pub value_before: f64,
    pub theta: f64,
    pub extra: Extra,
}

impl Kind {
    // The kind's number, as document 01 has it.
    pub fn number(self) -> usize
        ensures { result ≡ kind_number (Some self) }
    {
        self as usize
    }
}

// The kind of a phase's question, where one is asked.
pub fn asked(phase: Phase) -> Option<Kind>
    ensures { kind_number result ≡ kind_of (phase_of phase) }
{
    match phase {
        Phase::Value(_) | Phase::Probe(_, _, _) => Some(Kind::Value),
        Phase::Gradient(_) => Some(Kind::Gradient),
        Phase::Notice => Some(Kind::Notice),
        Phase::Ended(_) => None,
    }
}

// The fit in another phase.
pub fn with_phase(fit: Fit, phase: Phase) -> Fit
    ensures { result ≡ with_phase phase fit }
{
    Fit { phase, ..fit }
}

// The fit has ended.
pub fn ended(fit: Fit, why: Termination) -> Fit
    ensures { Turns (ending (termination_of why)) fit result }
{
    with_phase(fit, Phase::Ended(why))
}

// A value question, unless the budget is spent.
pub fn ask_value(fit: Fit, phase: Phase) -> Fit
    ensures { Turns (ask_value (phase_of phase)) fit result }
{
    let mut counters = fit.counters;
    if counters.charge_value(fit.limits) {
        Fit {
            counters,
            phase,
            ..fit
        }
    } else {
        ended(fit, Termination::MaxEvaluations)
    }
}

// The value at a place: at the start it is held at once.
pub fn valued(fit: Fit, place: Place, value: f64) -> Fit
    ensures { Turns (valued_of (place_of place) value) fit result }
{
    match place {
        Place::Start => Fit {
            value,
            trial_value: value,
            ..fit
        },
        Place::Trial => Fit {
            trial_value: value,
            ..fit
        },
    }
}

// ---- the log's numbers

// One more entry is kept, of `length` words.
pub fn one_more(extra: Extra, length: usize) -> Extra
    requires { (extra.entries + 1 < usizes) × (extra.words + length < usizes) }
    ensures { result ≡ more_kept extra length }
{
    Extra {
        entries: extra.entries + 1,
        words: extra.words + length,
    }
}

// The fit with one more entry kept.
pub fn counted(fit: Fit, length: usize) -> Fit
    requires { (fit.extra.entries + 1 < usizes) × (fit.extra.words + length < usizes) }
    ensures { result ≡ with_extra (more_kept fit.extra length) fit }
{
    Fit {
        extra: one_more(fit.extra, length),
        ..fit
    }
}
