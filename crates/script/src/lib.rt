// Runs a script of calls of the exported operations, three words to a call, each at the words that the last one left.
#![tactic(auto)]

ghost use Rattle.std.specs.Prelude.{◌≡◌, List, ℕ, length, Some};
ghost use Rattle.lbfgsb.specs.Words.{words};
ghost use Rattle.script.specs.Script.{part_of, called, call_of, calls, given_of, ran_as, read_as, shown, Shows, Runs};

use lbfgsb::{Fit, Kind, Outcome, Refusal, Reply, Setup};

// What a call answers where it is not refused; its point, words or bytes stand in the outputs.
#[derive(Clone, Copy, Debug)]
pub enum Answer {
    Done,
    Asked(Option<Kind>),
    Reported(Outcome),
    Counted(usize),
    Entered(usize),
    Saved(usize),
}

// The state after a script, and what its last call answered, where there is one.
#[derive(Clone, Copy)]
pub struct Ran {
    pub fit: Fit,
    pub last: Option<Result<Answer, Refusal>>,
}

// What the calls of a script are given: the setup of a start, the words of gradients, the bytes of records.
#[derive(Clone, Copy)]
pub struct Inputs<'a> {
    pub setup: Setup<'a>,
    pub gradients: &'a [u64],
    pub records: &'a [u8],
}

// A part of a slice: so many elements from one on.
#[derive(Clone, Copy, Debug, PartialEq, Eq)]
struct Part {
    from: u64,
    count: u64,
}

// A call.
#[derive(Clone, Copy, Debug, PartialEq, Eq)]
enum Called {
    Start,
    Reply(Reply, Part),
    TakeBack(usize),
    Restore(Part),
    Question,
    Report,
    Replies,
    Entry(usize),
    Save,
}

// ---- the calls

impl Part {
    // The part of a slice; nothing where it is not all there.
    fn of<T>(self, slice: &[T]) -> &[T]
        ensures { result.now ≡ part_of self.from self.count slice.now }
    {
        let from = self.from as usize;
        let count = self.count as usize;
        if slice.len() < from || slice.len() - from < count {
            return &slice[..0];
        }
        &slice[from..from + count]
    }
}

impl Called {
    // The call of three words.
    // Kept: numbers, since a script is words.
    fn of_words(op: u64, a: u64, b: u64) -> Called
        ensures { result ≡ called op a b }
    {
        let part = Part { from: a, count: b };
        match op {
            0 => Called::Start,
            1..=6 => Called::Reply(Reply::of_kind(op, a), part),
            7 => Called::TakeBack(a as usize),
            8 => Called::Restore(part),
            9 => Called::Question,
            10 => Called::Report,
            11 => Called::Replies,
            12 => Called::Entry(a as usize),
            _ => Called::Save,
        }
    }
}

// ---- the script

impl Ran {
    // After a call that changes the words.
    fn changed(self, answer: Result<Fit, Refusal>) -> Ran
        ensures { result ≡ ran_as self.fit answer }
    {
        match answer {
            Ok(next) => Ran {
                fit: next,
                last: Some(Ok(Answer::Done)),
            },
            Err(refusal) => Ran {
                last: Some(Err(refusal)),
                ..self
            },
        }
    }

    // After a call that reads them.
    fn read(self, answer: Result<Answer, Refusal>) -> Ran
        ensures { result ≡ read_as self.fit answer }
    {
        Ran {
            last: Some(answer),
            ..self
        }
    }
}

// One call.
fn step(
    call: Called,
    inputs: Inputs,
    ran: Ran,
    area: &mut [f64],
    log: &mut [u64],
    point: &mut [f64],
    found: &mut [u64],
    bytes: &mut [u8],
) -> Ran
    ensures { Shows (call_of (given_of inputs.entry (length point.old) (length found.old) (length bytes.old)) call)
        (words ran.fit area.old log.old) (words result.fit area.new log.new)
        (shown result.last result.fit.shape.n point.new found.new bytes.new) }
{
    let fit = ran.fit;
    match call {
        Called::Start => ran.changed(lbfgsb::start(fit, area, inputs.setup)),
        Called::Reply(reply, part) => {
            let gradient = part.of(inputs.gradients);
            ran.changed(lbfgsb::reply(fit, area, log, reply, gradient))
        }
        Called::TakeBack(j) => ran.changed(lbfgsb::take_back(fit, area, log, j)),
        Called::Restore(part) => {
            let record = part.of(inputs.records);
            ran.changed(lbfgsb::restore(fit, area, log, record))
        }
        Called::Question => ran.read(lbfgsb::question(fit, area, point).map(Answer::Asked)),
        Called::Report => ran.read(lbfgsb::report(fit, area, point).map(Answer::Reported)),
        Called::Replies => ran.read(Ok(Answer::Counted(lbfgsb::replies(fit, area)))),
        Called::Entry(k) => ran.read(lbfgsb::entry(fit, area, log, k, found).map(Answer::Entered)),
        Called::Save => ran.read(lbfgsb::save(fit, area, log, bytes).map(Answer::Saved)),
    }
}

// Three words a call: its op and two arguments, a and b.
//   0 start
//   1 value reply a, 2 gradient reply of b words from a on of the gradients, 3 not supplied, 4 go on, 5 stop, 6 failure
//   7 take back a, 8 restore from b bytes from a on of the records
//   9 question, 10 report, 11 replies, 12 entry a, any other save
// A part that is not all there is empty, and words past the last call count for nothing.
// Kept: five outputs. A struct of them proves, but what a caller then finds in its own slices takes five clauses more, that each loan is the same.
pub fn run_script(
    script: &[u64],
    inputs: Inputs,
    fit: Fit,
    area: &mut [f64],
    log: &mut [u64],
    point: &mut [f64],
    found: &mut [u64],
    bytes: &mut [u8],
) -> Ran
    ensures { Runs (calls (given_of inputs.entry (length point.old) (length found.old) (length bytes.old)) script.now)
        (words fit area.old log.old) (words result.fit area.new log.new)
        (shown result.last result.fit.shape.n point.new found.new bytes.new) }
{
    let mut ran = Ran { fit, last: None };
    let (calls, _) = script.as_chunks::<3>();
    for [op, a, b] in calls {
        ran = step(
            Called::of_words(*op, *a, *b),
            inputs,
            ran,
            area,
            log,
            point,
            found,
            bytes,
        );
    }
    ran
}
