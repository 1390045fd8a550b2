// Reading state, area and log: the entries of the log, and the record.
#![tactic(auto)]

ghost use Rattle.std.specs.Prelude.{◌≡◌, ◌+◌, ◌-◌, ◌*◌, ◌≤◌, length};
ghost use Rattle.definition.specs.Problem.{most_coordinates};
ghost use Rattle.question.specs.Reports.{written as written_first};
ghost use Rattle.record.specs.Records.{setup_size};
ghost use Rattle.lookup.specs.Reading.{Placed};
ghost use Rattle.held.specs.Words.{words};
ghost use Rattle.lookup.specs.Reading.{front_entry, entry_in, record_in};

use fit::Fit;
use problem::Setup;

// The words of the entry that begins some words: none where it is unknown or cut, or where there are no words.
fn front_entry(words: &[u64], n: usize) -> &[u64]
    requires { n ≤ most_coordinates }
    ensures { result.now ≡ front_entry n words.now }
{
    if words.is_empty() {
        return words;
    }
    let length = record::entry_length(words[0], n).unwrap_or(0);
    if words.len() < length {
        return &words[..0];
    }
    &words[..length]
}

// The words of entry k, from 0 the oldest, among the words of a log: none where there is no such entry.
pub fn entry(words: &[u64], n: usize, k: usize) -> &[u64]
    requires { n ≤ most_coordinates }
    ensures { result.now ≡ entry_in n k words.now }
{
    let mut rest = words;
    for _ in 0..k {
        let front = front_entry(rest, n);
        if front.is_empty() {
            return front;
        }
        rest = &rest[front.len()..];
    }
    front_entry(rest, n)
}

// The record of what state, area and log hold, into the front of an output slice.
pub fn put_record(fit: Fit, area: &[f64], log: &[u64], out: &mut [u8])
    requires { Placed fit area.now × (fit.extra.words ≤ length log.now)
        × (8 * (setup_size fit.options.bounded fit.shape.n + fit.extra.words + 4) ≤ length out.old) }
    ensures { out.new ≡ written_first (record_in (words fit area.now log.now)) out.old }
{
    let n = fit.shape.n;
    let setup = Setup {
        options: fit.options,
        x0: &area[area::X0 * n..area::X0 * n + n],
        lower: &area[area::LOWER * n..area::LOWER * n + n],
        upper: &area[area::UPPER * n..area::UPPER * n + n],
    };
    record::write(setup, &log[..fit.extra.words], out);
}
