// The driver: whether a reply is due, and the step from it to the next question.
#![tactic(auto)]

ghost use Rattle.std.specs.Prelude.{◌≡◌, List, ℕ, length, cond};
ghost use Rattle.area.specs.Area.{Vecs};
ghost use Rattle.problem.specs.Setups.{check_of};
ghost use Rattle.fit.specs.State.{kind_number, machine, phase_of, Turns, Steps};
ghost use Rattle.fit.specs.Ready.{Ready};
ghost use Rattle.definition.specs.Machine.{InRange, suits as suits_of, check_due};
ghost use Rattle.driver.specs.declared.Reply.TheVariants.{Value, Gradient, NotSupplied, GoOn, Stop, Failure};
ghost use Rattle.driver.specs.Replies.{replied, entry_kind, reply_at, advanced};

use counters::Termination;
use fit::{Fit, Kind, Phase};
use problem::Refusal;

// A reply; the words of a gradient stand in the area, as the trial's gradient.
#[derive(Clone, Copy, Debug, PartialEq, Eq)]
pub enum Reply {
    Value(u64),
    Gradient,
    NotSupplied,
    GoOn,
    Stop,
    Failure,
}

impl Reply {
    // The kind of the reply: the first word of its entry in a log.
    pub fn kind(self) -> u64
        ensures { result ≡ entry_kind self }
    {
        match self {
            Reply::Value(_) => 1,
            Reply::Gradient => 2,
            Reply::NotSupplied => 3,
            Reply::GoOn => 4,
            Reply::Stop => 5,
            Reply::Failure => 6,
        }
    }

    // The reply of a kind, with the word that a value has; a failure past the kinds there are.
    // Kept: a number, since in a log and in a record a kind is a word; and no option, since it has answered for every number.
    pub fn of_kind(kind: u64, word: u64) -> Reply
        ensures { result ≡ reply_at kind word }
    {
        match kind {
            1 => Reply::Value(word),
            2 => Reply::Gradient,
            3 => Reply::NotSupplied,
            4 => Reply::GoOn,
            5 => Reply::Stop,
            _ => Reply::Failure,
        }
    }
}

// Whether a reply suits what is asked.
fn suits(asked: Option<Kind>, reply: Reply) -> bool
    ensures { (ws : List ℕ) → result ≡ suits_of (kind_number asked) (replied reply ws) }
{
    match reply {
        Reply::Value(_) => asked == Some(Kind::Value),
        Reply::Gradient | Reply::NotSupplied => asked == Some(Kind::Gradient),
        Reply::GoOn | Reply::Stop => asked == Some(Kind::Notice),
        Reply::Failure => asked.is_some(),
    }
}

// 13 where a reply is not due: the fit has ended, or the open question is of another kind. Whether a gradient has n words is asked where they stand.
pub fn check_due(fit: Fit, reply: Reply) -> Result<(), Refusal>
    ensures { (v : Vecs) (ws : List ℕ) → length ws ≡ fit.shape.n → check_of result ≡ check_due (machine fit v) (replied reply ws) }
{
    if suits(fit::asked(fit.phase), reply) {
        Ok(())
    } else {
        Err(Refusal::NotDue)
    }
}

// From a reply to the next question; a reply that is not due moves nothing. A stop is looked at before the iteration budget.
pub fn advance(fit: Fit, area: &mut [f64], reply: Reply) -> Fit
    requires { Ready fit (length area.old) × InRange (phase_of fit.phase) fit.shape.n }
    ensures { Steps (advanced reply) fit area.old result area.new }
{
    match (reply, fit.phase) {
        (Reply::Value(word), Phase::Value(place)) => {
            judge::on_value(fit, place, float::word_to_float(word))
        }
        (Reply::Value(word), Phase::Probe(place, i, side)) => {
            differences::on_probe(fit, place, i, side, float::word_to_float(word), area)
        }
        (Reply::Gradient, Phase::Gradient(place)) => judge::complete(fit, place, area),
        (Reply::NotSupplied, Phase::Gradient(place)) => {
            differences::on_not_supplied(fit, place, area)
        }
        (Reply::GoOn, Phase::Notice) => notice::on_go_on(fit, area),
        (Reply::Stop, Phase::Notice) => fit::ended(fit, Termination::Cancelled),
        (Reply::Failure, Phase::Ended(_)) => fit,
        (Reply::Failure, _) => fit::ended(fit, Termination::ObjectiveFailed),
        _ => fit,
    }
}
