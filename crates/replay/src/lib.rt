// Replaying entries: from a log, or from the words of a record, through the driver.
#![tactic(auto)]

ghost use Rattle.std.specs.Prelude.{◌≡◌, true, ◌&&◌, map, ◌+◌, ◌*◌, ◌/◌, ◌≤◌, ◌<◌, length, get_or, take, drop, leb};
ghost use Rattle.definition.specs.Number.{to_float};
ghost use Rattle.definition.specs.Problem.{most_coordinates};
ghost use Rattle.definition.specs.Driver.{answer};
ghost use Rattle.definition.specs.Record.{number_of, words_of};
ghost use Rattle.area.specs.Area.{view, upd, first_pair, vector_trial_gradient};
ghost use Rattle.fit.specs.State.{usizes, Steps};
ghost use Rattle.fit.specs.Ready.{Ready};
ghost use Rattle.differences.specs.Probing.{probing};
ghost use Rattle.held.specs.Test.{shape_held, is_ready};
ghost use Rattle.replay.specs.Replays.{source_words, Replays};
ghost use Rattle.replay.specs.Taken.{replied, size_of, gradient_at, EntryIs, is_due, admission, NextIs, Run, ValueIs, logged as logged_by};

use differences::{Next, Probing};
use driver::Reply;
use fit::{Fit, Phase};
use problem::Refusal;

// Where entries stand: in the words of a log, or of a record.
#[derive(Clone, Copy)]
pub enum Source<'a> {
    Log(&'a [u64]),
    Record(&'a [u8]),
}

// A reply, with the words that its entry takes.
#[derive(Clone, Copy)]
pub struct Entry {
    pub reply: Reply,
    pub length: usize,
}

// ---- words

impl Source<'_> {
    // How many words there are.
    fn words(self) -> usize
        ensures { result ≡ length (source_words self.entry) }
    {
        match self {
            Source::Log(log) => log.len(),
            Source::Record(input) => input.len() / 8,
        }
    }

    fn word(self, i: usize) -> u64
        requires { i < length (source_words self) }
        ensures { result ≡ get_or (source_words self.entry) i 0 }
    {
        match self {
            Source::Log(log) => log[i],
            Source::Record(input) => record::word_of(input, i),
        }
    }
}

// ---- entries

// The entry at word `at`: none where it is unknown or cut.
fn entry_at(n: usize, source: Source, at: usize) -> Option<Entry>
    requires { (at < length (source_words source)) × (n ≤ most_coordinates) }
    ensures { EntryIs n (source_words source.entry) at result }
{
    let kind = source.word(at);
    let length = record::entry_length(kind, n)?;
    if source.words() - at < length {
        return None;
    }
    let reply = if kind == 1 {
        Reply::Value(source.word(at + 1))
    } else {
        Reply::of_kind(kind, 0)
    };
    Some(Entry { reply, length })
}

fn is_due(fit: Fit, reply: Reply) -> bool
    ensures { result ≡ is_due fit reply }
{
    driver::check_due(fit, reply).is_ok()
}

// Whether the entry's reply is due, and has room in a log of `room` words.
fn check_admitted(fit: Fit, size: usize, entry: Entry, room: usize) -> Result<(), Refusal>
    ensures { result ≡ admission (is_ready fit size && is_due fit entry.reply) (leb (fit.extra.words + entry.length) room) }
{
    if !held::is_ready(fit, size) || !is_due(fit, entry.reply) {
        return Err(Refusal::Malformed);
    }
    if !record::has_room(fit.extra.words, entry.length, room) {
        return Err(Refusal::LogShort);
    }
    Ok(())
}

// The fit advanced by an entry that is due.
fn take_entry(fit: Fit, area: &mut [f64], source: Source, reply: Reply) -> Fit
    requires { (is_ready fit (length area.old) ≡ true) × (is_due fit reply ≡ true)
        × (fit.extra.words + size_of reply fit.shape.n ≤ length (source_words source)) }
    ensures { Steps
        (λ m. answer m (replied reply (gradient_at fit.shape.n (source_words source.entry) fit.extra.words)))
        fit area.old result area.new }
{
    if let Reply::Gradient = reply {
        let from = fit.extra.words + 1;
        area::set_each(
            area,
            fit.shape.n,
            area::TRIAL_GRADIENT,
            |_area, i| float::word_to_float(source.word(from + i)),
        );
    }
    driver::advance(fit, area, reply)
}

// The next entry, of a log with `room` words.
fn replay_entry(fit: Fit, area: &mut [f64], source: Source, room: usize) -> Result<Fit, Refusal>
    requires { (fit.extra.words < length (source_words source)) × (fit.shape.n ≤ most_coordinates) }
    ensures { NextIs fit area.old (source_words source.entry) room result area.new }
{
    let entry = entry_at(fit.shape.n, source, fit.extra.words).ok_or(Refusal::Malformed)?;
    check_admitted(fit, area.len(), entry, room)?;
    let next = take_entry(fit, area, source, entry.reply);
    Ok(fit::counted(next, entry.length))
}

// ---- a run of probes

// The value at the probe with the words of its entry, where one stands that limit and room let pass.
fn value_at(
    n: usize,
    probe: Probing,
    source: Source,
    limit: usize,
    room: usize,
) -> Option<(u64, usize)>
    requires { n ≤ most_coordinates }
    ensures { ValueIs n (source_words source.entry) probe limit room result }
{
    if source.words() <= probe.extra.words || limit <= probe.extra.entries {
        return None;
    }
    let entry = entry_at(n, source, probe.extra.words)?;
    let Reply::Value(word) = entry.reply else {
        return None;
    };
    if !record::has_room(probe.extra.words, entry.length, room) {
        return None;
    }
    Some((word, entry.length))
}

// The probe with one more entry kept.
fn logged(probe: Probing, length: usize) -> Probing
    requires { (probe.extra.entries + 1 < usizes) × (probe.extra.words + length < usizes) }
    ensures { result ≡ logged_by length probe }
{
    Probing {
        extra: fit::one_more(probe.extra, length),
        ..probe
    }
}

// The entries that are values at probes, where a probe is asked: from probe to probe, up to the value that completes the gradient or
// ends the fit. Only the numbers of the probe change on the way; the fit is put together once.
fn after_probes(fit: Fit, area: &mut [f64], source: Source, limit: usize, room: usize) -> Fit
    ensures { Run (source_words source.entry) limit room fit area.old result area.new }
{
    let Phase::Probe(place, i, side) = fit.phase else {
        return fit;
    };
    if !held::is_ready(fit, area.len()) {
        return fit;
    }
    let mut probe = differences::numbers_of(fit, i, side);
    'probes: while let Some((word, length)) = value_at(fit.shape.n, probe, source, limit, room) {
        let next = differences::next_probe(fit, probe, float::word_to_float(word), area);
        let Next::Probe(following) = next else {
            let here = differences::with_probe(fit, place, probe);
            let last = differences::settle(here, place, next, area);
            return fit::counted(last, length);
        };
        probe = logged(following, length);
    }
    differences::with_probe(fit, place, probe)
}

// At most `limit` entries, from the first on.
pub fn replay(
    fit: Fit,
    area: &mut [f64],
    source: Source,
    limit: usize,
    room: usize,
) -> Result<Fit, Refusal>
    requires { (is_ready fit (length area.old) ≡ true) × (fit.extra.entries ≡ 0) × (fit.extra.words ≡ 0) }
    ensures { Replays fit area.old (source_words source.entry) limit room result area.new }
{
    let mut reached = fit;
    while reached.extra.words < source.words() && reached.extra.entries < limit {
        let taken = replay_entry(reached, area, source, room)?;
        reached = after_probes(taken, area, source, limit, room);
    }
    Ok(reached)
}
