// The fit of a setup and entries, built anew: from the log, or from a record.
#![tactic(auto)]

ghost use Rattle.std.specs.Prelude.{◌≡◌, true, ◌+◌, ◌-◌, ◌*◌, ◌≤◌, length, take, drop};
ghost use Rattle.std.specs.Prelude.{None};
ghost use Rattle.definition.specs.Record.{words_of, setup_in as setup_read};
ghost use Rattle.area.specs.Area.{view};
ghost use Rattle.opening.specs.Opened.{setup_at, Room, Opened};
ghost use Rattle.held.specs.Test.{is_ready};
ghost use Rattle.record.specs.Records.{words_in, setup_from, HasOpened};
ghost use Rattle.rebuild.specs.Built.{zeroed, struck_out, entries_in, headed, Markable, Settles, all_of, Builds, Stays, Shortens, Reloads};

use fit::Fit;
use problem::Refusal;
use record::Parsed;
use replay::Source;

// The replay of a log's first `count` entries: where the words end before the last of them, one is cut.
fn all_of(replayed: Result<Fit, Refusal>, count: usize) -> Result<Fit, Refusal>
    ensures { result ≡ all_of replayed count }
{
    let fit = replayed?;
    if fit.extra.entries < count {
        return Err(Refusal::Malformed);
    }
    Ok(fit)
}

// What a replay leaves: an entry that is refused leaves the area zero.
fn settle(area: &mut [f64], replayed: Result<Fit, Refusal>)
    requires { Markable replayed (length area.old) }
    ensures { Settles replayed area.old area.new }
{
    match replayed {
        Ok(fit) => held::mark(area, fit.shape),
        Err(_) => area.fill(0.0),
    }
}

// The fit of the log's first `count` entries, no fewer, from the setup that state and area hold.
fn replay_log(fit: Fit, area: &mut [f64], log: &[u64], count: usize) -> Result<Fit, Refusal>
    requires { (is_ready fit (length area.old) ≡ true) × (fit.extra.words ≤ length log.now) }
    ensures { Stays (setup_at fit.options (view area.old fit.shape.n)) (take fit.extra.words log.now) count
        (length log.now) area.old result area.new }
{
    let first = opening::reset(fit.options, area, fit.shape.n);
    let source = Source::Log(&log[..fit.extra.words]);
    let replayed = replay::replay(first, area, source, count, log.len());
    let all = all_of(replayed, count);
    settle(area, all);
    all
}

// The fit of a record's setup and entries, for a log of `room` words. Each entry has a word, so none is past as many.
fn replay_record(area: &mut [f64], room: usize, parsed: Parsed) -> Result<Fit, Refusal>
    requires { HasOpened (length area.old) parsed }
    ensures { let ws = entries_in parsed.entry.frame in
        Builds (setup_read (words_in parsed.entry.frame)) ws (length ws) room area.old result area.new }
{
    let frame = parsed.frame;
    let vectors = frame.vectors();
    let setup = record::setup_from(parsed.options, &vectors, frame.n);
    let first = opening::begin(setup, area);
    let entries = frame.entries();
    let replayed = replay::replay(
        first,
        area,
        Source::Record(entries),
        entries.len() / 8,
        room,
    );
    settle(area, replayed);
    replayed
}

// The words of a record's entries into the log.
fn copy_entries(log: &mut [u64], bytes: &[u8], count: usize)
    requires { (8 * count ≤ length bytes.now) × (count ≤ length log.old) }
    ensures { log.new ≡ headed (words_of count bytes.now) log.old }
{
    for (i, word) in log[0..count].iter_mut().enumerate() {
        *word = record::word_at(bytes, 8 * i);
    }
}

// The log's first `count` entries are kept: the fit of them, and the words of the others zeroed. Where one is refused the log stays.
pub fn shorten(fit: Fit, area: &mut [f64], log: &mut [u64], count: usize) -> Result<Fit, Refusal>
    requires { (is_ready fit (length area.old) ≡ true) × (fit.extra.words ≤ length log.old) }
    ensures { Stays (setup_at fit.options (view area.old fit.shape.n)) (take fit.extra.words log.old) count
        (length log.old) area.old result area.new
        × Shortens result fit.extra.words log.old log.new }
{
    let back = replay_log(fit, area, log, count)?;
    log[back.extra.words..fit.extra.words].fill(0);
    Ok(back)
}

// The fit of a record, and its entries in the log. Where one is refused the log stays.
pub fn reload(area: &mut [f64], log: &mut [u64], parsed: Parsed) -> Result<Fit, Refusal>
    requires { HasOpened (length area.old) parsed }
    ensures { let ws = entries_in parsed.entry.frame in
        Builds (setup_read (words_in parsed.entry.frame)) ws (length ws) (length log.old) area.old result area.new
        × Reloads result parsed.entry.frame log.old log.new }
{
    let read = replay_record(area, log.len(), parsed)?;
    copy_entries(log, parsed.frame.entries(), read.extra.words);
    Ok(read)
}
