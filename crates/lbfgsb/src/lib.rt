// The exported operations: any state, area, log, record and slice length, in any order. State goes in and comes back by value.
// Each names its refusals in the order in which they are checked. A refusal changes no word, unless it says otherwise; a read changes its output alone.
#![tactic(auto)]

ghost use Rattle.std.specs.Prelude.{◌≡◌, List, ℕ, ◌+◌, ◌-◌, ◌*◌, length};
ghost use Rattle.definition.specs.History.{Call};
ghost use Rattle.fit.specs.declared.Fit.{Fit};
ghost use Rattle.lbfgsb.specs.Words.{words};
ghost use Rattle.lbfgsb.specs.Bridge.{setup_of, replied, next, kept, asked, told, entered, saved};
ghost use Rattle.lbfgsb.specs.Did.{Started, Restored, Replied, TakenBack, Read, Counted};

// What a caller names besides, passed on: the state and one that holds no fit, the setup, the options and those with nothing given, the kinds
// of questions, replies, reports, refusals.
pub use driver::Reply;
pub use fit::{Fit, Kind};
pub use held::empty;
pub use problem::{Options, Refusal, Scheme, Setup, no_options};
pub use question::Outcome;

// ---- start, document 01's opening

// A new fit from a setup, in place of what the words held. The log is not lent: its words stay until replies are kept over them.
// Refused: 1 to 10 by the setup, 11 by the area's length.
pub fn start(fit: Fit, area: &mut [f64], setup: Setup) -> Result<Fit, Refusal>
    ensures { (l : List ℕ)
        → Started (setup_of setup.entry) (words fit area.old l) (words (next fit result) area.new l) (kept result) }
{
    record::check_start(setup, area.len())?;
    Ok(accept::opened(setup, area))
}

// ---- reply

// The reply to the open question; the words of a gradient beside it, which no other reply looks at. Its entry stands in the log behind the last.
// Refused: 13 where no fit is held, it has ended or the kind is not due; 14 by the gradient's length; 12 where the log has no room for the entry.
pub fn reply(
    fit: Fit,
    area: &mut [f64],
    log: &mut [u64],
    said: Reply,
    gradient: &[u64],
) -> Result<Fit, Refusal>
    ensures { Replied (replied said gradient.now) (words fit area.old log.old)
        (words (next fit result) area.new log.new) (kept result) }
{
    if !held::is_held(fit, area) {
        return Err(Refusal::NotDue);
    }
    accept::check_reply(fit, said, gradient.len(), log.len())?;
    Ok(accept::keep(fit, area, log, said, gradient))
}

// ---- take_back and restore

// The last j replies are taken back, and their words in the log zeroed; with no fit held a j of 0 is accepted and changes nothing.
// Refused: 16 where there are fewer; 12 where the log is shorter than its entries; 17 at an entry of an altered log, and then the area is all zero.
pub fn take_back(fit: Fit, area: &mut [f64], log: &mut [u64], j: usize) -> Result<Fit, Refusal>
    ensures { TakenBack j (words fit area.old log.old) (words (next fit result) area.new log.new) (kept result) }
{
    if !held::is_held(fit, area) {
        return if j == 0 {
            Ok(fit)
        } else {
            Err(Refusal::TooFewReplies)
        };
    }
    if fit.extra.entries < j {
        return Err(Refusal::TooFewReplies);
    }
    if log.len() < fit.extra.words {
        return Err(Refusal::LogShort);
    }
    rebuild::shorten(fit, area, log, fit.extra.entries - j)
}

// Document 01's reading in: the fit of a record, in place of what the words held; the record's entries are copied into the log.
// Refused: 17, 18, 17, 1 to 10 and 11 by the record (docs/RECORD.md has each); then, entry by entry, 17 and 12, and then the area is all zero.
pub fn restore(fit: Fit, area: &mut [f64], log: &mut [u64], input: &[u8]) -> Result<Fit, Refusal>
    ensures { Restored input.now (words fit area.old log.old) (words (next fit result) area.new log.new)
        (kept result) }
{
    let parsed = record::check(input, area.len())?;
    rebuild::reload(area, log, parsed)
}

// ---- reading

// The open question: its kind, and its point in the front of the output. Nothing where no fit is held or it has ended.
// Refused: 19 where a question is open and the output has fewer than n floats.
pub fn question(fit: Fit, area: &[f64], out: &mut [f64]) -> Result<Option<Kind>, Refusal>
    ensures { (l : List ℕ)
        → Read (Call.question (length out.old)) (words fit area.now l) (asked result fit.shape.n out.new) out.old
        out.new }
{
    if !held::is_held(fit, area) {
        return Ok(None);
    }
    let Some(kind) = fit::asked(fit.phase) else {
        return Ok(None);
    };
    let needed = fit.shape.n;
    if out.len() < needed {
        return Err(Refusal::OutputShort { needed });
    }
    question::put_question(fit, area, out);
    Ok(Some(kind))
}

// The report, its point in the front of the output.
// Refused: 15 where no fit is held, there is no value reply yet or the objective failed; 19 where the output has fewer than n floats.
pub fn report(fit: Fit, area: &[f64], out: &mut [f64]) -> Result<Outcome, Refusal>
    ensures { (l : List ℕ)
        → Read (Call.report (length out.old)) (words fit area.now l) (told result fit.shape.n out.new) out.old
        out.new }
{
    if !held::is_held(fit, area) {
        return Err(Refusal::NoReport);
    }
    if question::unreported(fit.phase) {
        return Err(Refusal::NoReport);
    }
    let needed = fit.shape.n;
    if out.len() < needed {
        return Err(Refusal::OutputShort { needed });
    }
    question::put_point(fit, area, out);
    Ok(question::outcome_of(fit))
}

// How many replies are kept: 0 where no fit is held. Never refused.
pub fn replies(fit: Fit, area: &[f64]) -> usize
    ensures { (l : List ℕ) → Counted result (words fit area.now l) }
{
    if held::is_held(fit, area) {
        return fit.extra.entries;
    }
    0
}

// The words of entry k, from 0 the oldest, in the front of the output; none where there is no such entry or no fit is held.
// Refused: 12 where the log is shorter than its entries; 19 where the output is shorter than this one.
pub fn entry(
    fit: Fit,
    area: &[f64],
    log: &[u64],
    k: usize,
    out: &mut [u64],
) -> Result<usize, Refusal>
    ensures { Read (Call.entry k (length out.old)) (words fit area.now log.now) (entered result out.new)
        out.old out.new }
{
    if !held::is_held(fit, area) {
        return Ok(0);
    }
    let words = log.get(..fit.extra.words).ok_or(Refusal::LogShort)?;
    if fit.extra.entries <= k {
        return Ok(0);
    }
    let found = lookup::entry(words, fit.shape.n, k);
    if out.len() < found.len() {
        return Err(Refusal::OutputShort {
            needed: found.len(),
        });
    }
    out[..found.len()].copy_from_slice(found);
    Ok(found.len())
}

// The record of setup and log, in bytes in the front of the output; nothing where no fit is held.
// Refused: 12 where the log is shorter than its entries; 19 where the output is shorter than the record.
pub fn save(fit: Fit, area: &[f64], log: &[u64], out: &mut [u8]) -> Result<usize, Refusal>
    ensures { Read (Call.save (length out.old)) (words fit area.now log.now) (saved result out.new)
        out.old out.new }
{
    if !held::is_held(fit, area) {
        return Ok(0);
    }
    let words = fit.extra.words;
    if log.len() < words {
        return Err(Refusal::LogShort);
    }
    let needed = 8 * (record::setup_words(fit.options.bounded, fit.shape.n) + words + 4);
    if out.len() < needed {
        return Err(Refusal::OutputShort { needed });
    }
    lookup::put_record(fit, area, log, out);
    Ok(needed)
}
