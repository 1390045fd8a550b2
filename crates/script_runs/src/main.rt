// Runs scripts of calls on document 01's first starred case, f = x²/2 in a box from -8 to 8 with the start 4, each from an area of zeros
// that just holds the fit, a log that just holds its five replies, and a state of junk. Of each script the last answer is written, one line
// each: its number (0 nothing, 1 done, 2 refused, 3 no question, 4 question, 5 report, 6 replies, 7 entry, 8 save) and what comes with it.
// Of a refusal that is its number and both details, so that these stand in the expected output as document 01 has them: 14 and 3 (expected, found).
#![tactic(auto)]

use compact::Shape;
use counters::Counters;
use fit::Extra;
use lbfgsb::{Fit, Options, Setup};
use problem::Limits;
use script::{Answer, Inputs, Ran};
use search::{Search, Step, Trials};
use std::{fmt, io};

// Kept: these eleven are numbers, since a script is words; an enum would be turned into words at each of its calls.
const START: u64 = 0;

const VALUE: u64 = 1;

const GRADIENT: u64 = 2;

const GO_ON: u64 = 4;

const TAKE_BACK: u64 = 7;

const RESTORE: u64 = 8;

const QUESTION: u64 = 9;

const REPORT: u64 = 10;

const REPLIES: u64 = 11;

const ENTRY: u64 = 12;

const SAVE: u64 = 13;

// The words of 1.0, 4.0 and 8.0.
const ONE: u64 = 0x3FF0_0000_0000_0000;

const FOUR: u64 = 0x4010_0000_0000_0000;

const EIGHT: u64 = 0x4020_0000_0000_0000;

// The bytes of the case's record.
const RECORD: usize = 184;

// ---- the scripts

// A script: its calls, how many words are cut from their end, both sides of its box, and whether it may read the record that was saved last.
#[derive(Clone, Copy)]
struct Script {
    calls: &'static [[u64; 3]],
    cut: usize,
    lower: &'static [f64],
    upper: &'static [f64],
    reads: bool,
}

// No call, on the box of the case, with one byte to read.
const EMPTY: Script = Script {
    calls: &[],
    cut: 0,
    lower: &[-8.0],
    upper: &[8.0],
    reads: false,
};

const SCRIPTS: [Script; 16] = [
    // the case: value, gradient, value, gradient, go on, report
    Script {
        calls: &[
            [START, 0, 0],
            [VALUE, EIGHT, 0],
            [GRADIENT, 0, 1],
            [VALUE, 0, 0],
            [GRADIENT, 1, 1],
            [GO_ON, 0, 0],
            [REPORT, 0, 0],
        ],
        ..EMPTY
    },
    // a value taken back and given anew
    Script {
        calls: &[
            [START, 0, 0],
            [VALUE, EIGHT, 0],
            [GRADIENT, 0, 1],
            [VALUE, ONE, 0],
            [TAKE_BACK, 1, 0],
            [VALUE, 0, 0],
            [GRADIENT, 1, 1],
            [GO_ON, 0, 0],
            [REPORT, 0, 0],
        ],
        ..EMPTY
    },
    // all taken back: the first question is open again
    Script {
        calls: &[
            [START, 0, 0],
            [VALUE, EIGHT, 0],
            [GRADIENT, 0, 1],
            [VALUE, ONE, 0],
            [TAKE_BACK, 3, 0],
            [QUESTION, 0, 0],
        ],
        ..EMPTY
    },
    // a reply that is not due
    Script {
        calls: &[[START, 0, 0], [GO_ON, 0, 0]],
        ..EMPTY
    },
    // a gradient of two words
    Script {
        calls: &[[START, 0, 0], [VALUE, EIGHT, 0], [GRADIENT, 0, 2]],
        ..EMPTY
    },
    // more taken back than given
    Script {
        calls: &[[START, 0, 0], [VALUE, EIGHT, 0], [TAKE_BACK, 2, 0]],
        ..EMPTY
    },
    // sides of the box longer than the start: the lower one of three words before the upper one of two, then the upper one alone
    Script {
        calls: &[[START, 0, 0]],
        lower: &[-8.0, -8.0, -8.0],
        upper: &[8.0, 8.0],
        ..EMPTY
    },
    Script {
        calls: &[[START, 0, 0]],
        upper: &[8.0, 8.0],
        ..EMPTY
    },
    // a refused reply keeps the fit: its replies are those of before, then its entry
    Script {
        calls: &[
            [START, 0, 0],
            [VALUE, EIGHT, 0],
            [GRADIENT, 0, 2],
            [REPLIES, 0, 0],
        ],
        ..EMPTY
    },
    Script {
        calls: &[
            [START, 0, 0],
            [VALUE, EIGHT, 0],
            [GRADIENT, 0, 2],
            [ENTRY, 0, 0],
        ],
        ..EMPTY
    },
    // calls at no fit, unknown ops, a part out of range and two words too many, before the question
    Script {
        calls: &[
            [99, 5, 6],
            [VALUE, EIGHT, 0],
            [TAKE_BACK, 1, 0],
            [RESTORE, 0, 9],
            [RESTORE, 0xFFFF_FFFF_FFFF_FFFF, 9],
            [REPORT, 0, 0],
            [START, 0, 0],
            [QUESTION, 0, 0],
            [5, 5, 0],
        ],
        cut: 1,
        ..EMPTY
    },
    // no call at all
    Script {
        calls: &[[START, 0, 0]],
        cut: 1,
        ..EMPTY
    },
    // the record of the case, and the fit that is read in from it: its replies, and its report; a record cut by a byte
    Script {
        calls: &[
            [START, 0, 0],
            [VALUE, EIGHT, 0],
            [GRADIENT, 0, 1],
            [VALUE, 0, 0],
            [GRADIENT, 1, 1],
            [GO_ON, 0, 0],
            [SAVE, 0, 0],
        ],
        ..EMPTY
    },
    Script {
        calls: &[[RESTORE, 0, 184], [REPLIES, 0, 0]],
        reads: true,
        ..EMPTY
    },
    Script {
        calls: &[[RESTORE, 0, 184], [REPORT, 0, 0]],
        reads: true,
        ..EMPTY
    },
    Script {
        calls: &[[RESTORE, 0, 183]],
        reads: true,
        ..EMPTY
    },
];

// ---- what a script is given

const SHAPE: Shape = Shape {
    n: 7,
    m: 7,
    pairs: 7,
    oldest: 7,
};

const LIMITS: Limits = Limits {
    ftol: 7.0,
    gtol: 7.0,
    maxiter: 7,
    maxfev: 7,
};

const COUNTERS: Counters = Counters {
    nit: 7,
    nfev: 7,
    njev: 7,
};

const SEARCH: Search = Search {
    step: Step {
        alpha: 7.0,
        low: 7.0,
        high: 7.0,
        slope0: 7.0,
        amax: 7.0,
    },
    trials: Trials {
        count: 7,
        face: true,
        bracketed: true,
    },
};

// A state of sevens: the fit of no run.
fn junk() -> Fit {
    Fit {
        shape: SHAPE,
        options: boxed(),
        limits: LIMITS,
        counters: COUNTERS,
        search: SEARCH,
        value: 7.0,
        trial_value: 7.0,
        right_value: 7.0,
        value_before: 7.0,
        theta: 7.0,
        extra: Extra {
            entries: 7,
            words: 7,
        },
        ..lbfgsb::empty()
    }
}

// A box, and the default for everything else.
fn boxed() -> Options {
    Options {
        bounded: true,
        ..lbfgsb::no_options()
    }
}

// ---- writing

// An answer in a line, with the first coordinate and the first two words of the outputs.
#[derive(Clone, Copy)]
struct Line {
    ran: Ran,
    point: f64,
    first: u64,
    second: u64,
}

impl fmt::Display for Line {
    fn fmt<W: fmt::Write>(&self, formatter: &mut fmt::Formatter<W>) -> fmt::Result {
        let point = float::float_to_word(self.point);
        let answer = match self.ran.last {
            None => return write!(formatter, "0"),
            Some(Err(refusal)) => {
                let (first, second) = refusal.details();
                return write!(formatter, "2 {} {first} {second}", refusal.number());
            }
            Some(Ok(answer)) => answer,
        };
        match answer {
            Answer::Done => write!(formatter, "1"),
            Answer::Asked(None) => write!(formatter, "3"),
            Answer::Asked(Some(kind)) => write!(formatter, "4 {} {point:016x}", kind.number()),
            Answer::Reported(outcome) => {
                let value = float::float_to_word(outcome.value);
                write!(
                    formatter,
                    "5 {} {} {} {} {}",
                    outcome.status(),
                    outcome.nit,
                    outcome.nfev,
                    outcome.njev,
                    outcome.drawn
                )?;
                write!(formatter, " {value:016x} {point:016x}")
            }
            Answer::Counted(count) => write!(formatter, "6 {count}"),
            Answer::Entered(count) => {
                write!(
                    formatter,
                    "7 {count} {:016x} {:016x}",
                    self.first, self.second
                )
            },
            Answer::Saved(count) => write!(formatter, "8 {count}"),
        }
    }
}

// ---- the scripts in turn

// The last answer of a script.
fn run(script: Script, record: &[u8], bytes: &mut [u8]) -> Line {
    let words = script.calls.as_flattened();
    let end = words.len().saturating_sub(script.cut);
    let mut area = [0.0f64; 496];
    let mut log = [0u64; 9];
    let mut point = [0.0f64; 1];
    let mut found = [0u64; 2];
    let inputs = Inputs {
        setup: Setup {
            options: boxed(),
            x0: &[4.0],
            lower: script.lower,
            upper: script.upper,
        },
        gradients: &[FOUR, 0],
        records: if script.reads { record } else { &[0] },
    };
    let ran = script::run_script(
        &words[..end],
        inputs,
        junk(),
        &mut area,
        &mut log,
        &mut point,
        &mut found,
        bytes,
    );
    Line {
        ran,
        point: point[0],
        first: found[0],
        second: found[1],
    }
}

fn main(rt: HostRuntime) -> io::Result<()> {
    let mut saved = [0u8; RECORD];
    for script in &SCRIPTS {
        let record = saved;
        println!(rt; "{}", run(*script, &record, &mut saved))?;
    }
    Ok(())
}
