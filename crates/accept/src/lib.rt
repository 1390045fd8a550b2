// The fit that a start opens; what a reply is checked for, its entry in the log, and the fit that it advances.
#![tactic(auto)]

ghost use Rattle.std.specs.Prelude.{◌≡◌, true, List, ℕ, ◌+◌, ◌-◌, ◌*◌, ◌≤◌, ltb, Float, length};
ghost use Rattle.std.specs.Prelude.{None};
ghost use Rattle.definition.specs.Problem.{refuse, when, ◌then◌, validate, most_coordinates, most_pairs, area_words};
ghost use Rattle.definition.specs.Machine.{check_length, check_due};
ghost use Rattle.definition.specs.Log.{entry_words};
ghost use Rattle.definition.specs.Book.{opened_book};
ghost use Rattle.definition.specs.Record.{check_area};
ghost use Rattle.area.specs.Area.{view, first_pair};
ghost use Rattle.problem.specs.Setups.{setup_of, places_in, check_of};
ghost use Rattle.fit.specs.State.{machine_of};
ghost use Rattle.record.specs.Records.{entry_size};
ghost use Rattle.held.specs.Test.{is_ready};
ghost use Rattle.driver.specs.Replies.{replied, entry_kind};
ghost use Rattle.accept.specs.Moves.{written, stored, check_said, Advances};
ghost use Rattle.held.specs.Words.{words, Held};

use driver::Reply;
use fit::Fit;
use problem::{Options, Refusal, Setup};

// ---- start

// The fit of a setup that passed, at its first question: no entry is in the log.
pub fn opened(setup: Setup, area: &mut [f64]) -> Fit
    requires { let s = setup_of setup in (validate s then check_area (record { area = length area.old; log = 0 }) s) ≡ None }
    ensures { (l : List ℕ) → Held (words result area.new l) (opened_book (setup_of setup.entry)) }
{
    let fit = opening::begin(setup, area);
    held::mark(area, fit.shape);
    fit
}

// ---- reply

// 14 for a gradient that is not of n words.
fn check_length(reply: Reply, found: usize, n: usize) -> Result<(), Refusal>
    ensures { (ws : List ℕ) → length ws ≡ found → check_of result ≡ check_length n (replied reply ws) }
{
    match reply {
        Reply::Gradient if found != n => Err(Refusal::GradientLength { expected: n, found }),
        _ => Ok(()),
    }
}

// The words of a reply's entry.
fn entry_length(reply: Reply, n: usize) -> usize
    requires { n ≤ most_coordinates }
    ensures { result ≡ entry_size (entry_kind reply) n }
{
    record::entry_length(reply.kind(), n).unwrap()
}

// 13, 14 and 12 for a reply with the gradient's words beside it.
pub fn check_reply(fit: Fit, reply: Reply, gradient: usize, room: usize) -> Result<(), Refusal>
    requires { fit.shape.n ≤ most_coordinates }
    ensures { (a : List Float) (ws : List ℕ) → length ws ≡ gradient → check_of result ≡ check_said fit a room (replied reply ws) }
{
    driver::check_due(fit, reply)?;
    check_length(reply, gradient, fit.shape.n)?;
    if !record::has_room(fit.extra.words, entry_length(reply, fit.shape.n), room) {
        return Err(Refusal::LogShort);
    }
    Ok(())
}

// The words of a gradient into the log.
fn log_gradient(log: &mut [u64], at: usize, words: &[u64])
    requires { at + length words.now ≤ length log.old }
    ensures { log.new ≡ written at words.now log.old }
{
    log[at..at + words.len()].copy_from_slice(words);
}

// The entry of a reply into the log.
fn log_entry(log: &mut [u64], at: usize, reply: Reply, gradient: &[u64])
    requires { at + length (entry_words (replied reply gradient.now)) ≤ length log.old }
    ensures { log.new ≡ written at (entry_words (replied reply gradient.now)) log.old }
{
    log[at] = reply.kind();
    match reply {
        Reply::Value(word) => log[at + 1] = word,
        Reply::Gradient => log_gradient(log, at + 1, gradient),
        _ => {}
    }
}

// The words of a gradient into the area, as the trial's gradient; no other reply brings any.
fn put_gradient(area: &mut [f64], n: usize, reply: Reply, gradient: &[u64])
    requires { (first_pair * n ≤ length area.old) × (entry_kind reply ≡ 2 → length gradient.now ≡ n) }
    ensures { view area.new n ≡ stored reply gradient.now (view area.old n) }
{
    if let Reply::Gradient = reply {
        area::set_each(
            area,
            n,
            area::TRIAL_GRADIENT,
            |_area, i| float::word_to_float(gradient[i]),
        );
    }
}

// The fit advanced by a reply that is due.
fn advanced(fit: Fit, area: &mut [f64], reply: Reply, gradient: &[u64]) -> Fit
    requires { (is_ready fit (length area.old) ≡ true) × (check_due (machine_of fit area.old) (replied reply gradient.now) ≡ None) }
    ensures { Advances (replied reply gradient.now) fit area.old result area.new }
{
    let n = fit.shape.n;
    put_gradient(area, n, reply, gradient);
    let next = driver::advance(fit, area, reply);
    held::mark(area, next.shape);
    fit::counted(next, entry_length(reply, n))
}

// A reply that passed, into the log and into the fit.
pub fn keep(fit: Fit, area: &mut [f64], log: &mut [u64], reply: Reply, gradient: &[u64]) -> Fit
    requires { (is_ready fit (length area.old) ≡ true) × (check_said fit area.old (length log.old) (replied reply gradient.now) ≡ None) }
    ensures { Advances (replied reply gradient.now) fit area.old result area.new
        × (log.new ≡ written fit.extra.words (entry_words (replied reply gradient.now)) log.old) }
{
    log_entry(log, fit.extra.words, reply, gradient);
    advanced(fit, area, reply, gradient)
}
