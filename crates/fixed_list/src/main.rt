// Replays the fixed list of the Rust's answers through the exported operations and compares every bit. The first argument names the file;
// `oracle/list/README.md` has its format. One area and one log serve all cases, so each starts on what the last left. An accepted record is
// restored and its replies are taken back one by one; then its setup is opened and each reply given again.
#![tactic(auto)]

use cases::{Word, behind, fetch, fetch_word, is_count, size, word};
use lbfgsb::{Fit, Outcome, Refusal, Reply};
use std::io::Read;
use std::{fmt, io};

// The words that hold one byte more than an input may have.
const INPUT: usize = 8_193;

// The words of a report: its refusal, and unless there is one six more and the point.
const REPORT: usize = 7 + input::COORDINATES;

// The words of a fit's questions at most.
const QUESTIONS: usize = 8_063;

// Added to a question's kind where its point is that of the question before it.
const SAME_POINT: u64 = 16;

// What is counted: the cases, those that are equal as refusals and as fits, the questions of these fits, and the cases that differ.
#[derive(Clone, Copy, Default)]
struct Counts {
    cases: u64,
    refused: u64,
    fits: u64,
    questions: u64,
    different: u64,
}

impl fmt::Display for Counts {
    fn fmt<W: fmt::Write>(&self, formatter: &mut fmt::Formatter<W>) -> fmt::Result {
        writeln!(formatter, "cases {}", self.cases)?;
        writeln!(formatter, "refused {}", self.refused)?;
        writeln!(formatter, "fits {}", self.fits)?;
        writeln!(formatter, "questions {}", self.questions)?;
        writeln!(formatter, "different {}", self.different)
    }
}

// What a case shows: it is refused as in the list; it is the list's fit, of so many questions; or it differs, with whether it is known
// where the next one starts.
#[derive(Clone, Copy)]
enum Verdict {
    Refused,
    Fit(u64),
    Different(bool),
}

// The list's answers for a fit: the words of the report, the number of questions, and the words of these.
#[derive(Clone, Copy)]
struct Answers<'a> {
    report: &'a [Word],
    count: usize,
    questions: &'a [Word],
}

// ---- reading a case

// The refusal that a word says; 0 says that there is none.
fn refusal_of(word: u64) -> Option<u64> {
    (word != 0).then(|| word)
}

// Reads a word to the first place, and answers it with the places behind it, where it came.
fn fetch_first<'a, F: Read>(
    file: &mut F,
    places: &'a mut [Word],
) -> io::Result<Option<(u64, &'a mut [Word])>> {
    let Some(word) = fetch_word(file)? else {
        return Ok(None);
    };
    let Some((place, rest)) = places.split_first_mut() else {
        return Ok(None);
    };
    *place = word.to_le_bytes();
    Ok(Some((word, rest)))
}

// Reads a question to the first places, and answers the places behind it, where it came.
fn fetch_question<'a, F: Read>(
    file: &mut F,
    places: &'a mut [Word],
    n: usize,
) -> io::Result<Option<&'a mut [Word]>> {
    let Some((kind, rest)) = fetch_first(file, places)? else {
        return Ok(None);
    };
    let point = if kind >= SAME_POINT { 0 } else { n };
    if point > rest.len() || !fetch(file, rest, point)? {
        return Ok(None);
    }
    Ok(Some(&mut rest[point..]))
}

// Reads so many questions, and answers whether they came.
fn fetch_questions<F: Read>(
    file: &mut F,
    places: &mut [Word],
    count: usize,
    n: usize,
) -> io::Result<bool> {
    let mut rest = places;
    for _ in 0..count {
        let Some(behind) = fetch_question(file, rest, n)? else {
            return Ok(false);
        };
        rest = behind;
    }
    Ok(true)
}

// Reads the report of a fit of n coordinates, and answers whether it came.
fn fetch_report<F: Read>(file: &mut F, places: &mut [Word], n: usize) -> io::Result<bool> {
    let Some((refusal, rest)) = fetch_first(file, places)? else {
        return Ok(false);
    };
    if refusal_of(refusal).is_some() {
        return Ok(true);
    }
    fetch(file, rest, n.wrapping_add(6))
}

// Reads the report and the questions of a fit of n coordinates. The answer is how many questions there are, where all came.
fn fetch_answers<F: Read>(
    file: &mut F,
    report: &mut [Word],
    questions: &mut [Word],
    n: usize,
) -> io::Result<Option<usize>> {
    if !fetch_report(file, report, n)? {
        return Ok(None);
    }
    let Some(count) = fetch_word(file)? else {
        return Ok(None);
    };
    let count = count as usize;
    let came = fetch_questions(file, questions, count, n)?;
    Ok(came.then(|| count))
}

// ---- the report and the questions

fn is_outcome(report: &[Word], outcome: Outcome, n: usize) -> bool {
    is_count(report, 1, outcome.status())
        && is_count(report, 2, outcome.nit)
        && is_count(report, 3, outcome.nfev)
        && is_count(report, 4, outcome.njev)
        && cases::is_float(report, 5, outcome.value)
        && is_count(report, 6, n)
        && outcome.drawn == outcome.nfev
}

// Whether the report is that of the words: its refusal; status, nit, nfev, njev, value, n and the point.
fn is_report(report: &[Word], fit: Fit, area: &[f64]) -> bool {
    let mut point = [0.0f64; input::COORDINATES];
    let n = fit.shape.n;
    let refusal = refusal_of(word(report, 0));
    match lbfgsb::report(fit, area, &mut point) {
        Err(found) => refusal == Some(found.number() as u64),
        Ok(outcome) => {
            refusal.is_none()
                && is_outcome(report, outcome, n)
                && cases::are_floats(behind(report, 7), n, &point)
        }
    }
}

// The kind of a question, the words from its point on, and those behind the question.
// Kept: the kind is a number, as the list has it. It is compared with the number of the kind that is asked, and no more.
#[derive(Clone, Copy)]
struct Question<'a> {
    kind: u64,
    point: &'a [Word],
    rest: &'a [Word],
}

impl<'a> Question<'a> {
    // The first question. Where it says that its point is that of the one before it, which there is not, its point is the report's words.
    fn first(answers: Answers<'a>, n: usize) -> Self {
        let before = Question {
            kind: 0,
            point: answers.report,
            rest: answers.questions,
        };
        before.following(n)
    }

    // The question behind this one.
    fn following(self, n: usize) -> Self {
        let kind = word(self.rest, 0);
        let point = behind(self.rest, 1);
        if kind >= SAME_POINT {
            return Question {
                kind: kind - SAME_POINT,
                rest: point,
                ..self
            };
        }
        Question {
            kind,
            point,
            rest: behind(point, n),
        }
    }
}

// Question k, from 0 the first.
fn question_at<'a>(answers: Answers<'a>, n: usize, k: usize) -> Question<'a> {
    let mut question = Question::first(answers, n);
    for _ in 0..k {
        question = question.following(n);
    }
    question
}

// Whether so many replies are kept, and the open question is the one behind as many; there is no other where none is open.
fn is_asked(answers: Answers, fit: Fit, area: &[f64], replies: usize) -> bool {
    if lbfgsb::replies(fit, area) != replies {
        return false;
    }
    let mut point = [0.0f64; input::COORDINATES];
    let n = fit.shape.n;
    match lbfgsb::question(fit, area, &mut point) {
        Err(_) => false,
        Ok(None) => answers.count == replies,
        Ok(Some(kind)) => {
            let question = question_at(answers, n, replies);
            replies < answers.count
                && question.kind == kind.number() as u64
                && cases::are_floats(question.point, n, &point)
        }
    }
}

// Whether after so many replies the fit stands as at the end of the list's answers: no question comes after the open one.
fn is_last(answers: Answers, fit: Fit, area: &[f64], replies: usize) -> bool {
    answers.count <= replies.wrapping_add(1)
        && is_asked(answers, fit, area, replies)
        && is_report(answers.report, fit, area)
}

// ---- restored, and the replies taken back

// Takes so many replies back, one by one, and compares the question that each opens again.
fn retraced(answers: Answers, fit: Fit, area: &mut [f64], log: &mut [u64], replies: usize) -> bool {
    let mut left = fit;
    for k in (0..replies).rev() {
        left = lbfgsb::take_back(left, area, log, 1).unwrap_or(left);
        if !is_asked(answers, left, area, k) {
            return false;
        }
    }
    true
}

// ---- opened, and each reply given again

// The state after the reply of the record's next entry, behind the setup and the entries kept.
fn forth(record: &[Word], fit: Fit, area: &mut [f64], log: &mut [u64]) -> Fit {
    let n = fit.shape.n.min(input::COORDINATES);
    let at = record::setup_words(fit.options.bounded, n).wrapping_add(fit.extra.words);
    let entry = behind(record, at);
    let reply = Reply::of_kind(word(entry, 0), word(entry, 1));
    let mut gradient = [0u64; input::COORDINATES];
    cases::put_words(&mut gradient, behind(entry, 1));
    lbfgsb::reply(fit, area, log, reply, &gradient[..n]).unwrap_or(fit)
}

// Gives so many replies, one by one, and compares the question ahead of each; then what the list ends with.
fn given(
    answers: Answers,
    record: &[Word],
    fit: Fit,
    area: &mut [f64],
    log: &mut [u64],
    replies: usize,
) -> bool {
    let mut reached = fit;
    for k in 0..replies {
        if !is_asked(answers, reached, area, k) {
            return false;
        }
        reached = forth(record, reached, area, log);
    }
    is_last(answers, reached, area, replies)
}

// Opens a fit by the options and vectors of the record in an input, and gives its replies.
fn reopened(
    answers: Answers,
    input: &[u8],
    area: &mut [f64],
    log: &mut [u64],
    replies: usize,
) -> bool {
    let Ok(parsed) = record::check(input, area.len()) else {
        return false;
    };
    let record = cases::words(parsed.frame.bytes);
    let n = parsed.frame.n.min(input::COORDINATES);
    let mut vectors = [0.0f64; 3 * input::COORDINATES];
    cases::put_floats(&mut vectors, behind(record, 7));
    let setup = record::setup_from(parsed.options, &vectors, n);
    let Ok(fit) = lbfgsb::start(lbfgsb::empty(), area, setup) else {
        return false;
    };
    given(answers, record, fit, area, log, replies)
}

// ---- a case

// Whether the fit restored from an input, and then the one opened, are the list's.
fn is_fit(answers: Answers, input: &[u8], fit: Fit, area: &mut [f64], log: &mut [u64]) -> bool {
    let replies = lbfgsb::replies(fit, area);
    is_last(answers, fit, area, replies)
        && retraced(answers, fit, area, log, replies)
        && reopened(answers, input, area, log, replies)
}

// An input that is accepted, as in the list, whose answers follow.
fn accepted<F: Read>(
    file: &mut F,
    input: &[u8],
    fit: Fit,
    area: &mut [f64],
    log: &mut [u64],
) -> io::Result<Verdict> {
    let mut report = [[0u8; 8]; REPORT];
    let mut questions = [[0u8; 8]; QUESTIONS];
    let Some(count) = fetch_answers(file, &mut report, &mut questions, fit.shape.n)? else {
        return Ok(Verdict::Different(false));
    };
    let answers = Answers {
        report: &report,
        count,
        questions: &questions,
    };
    if is_fit(answers, input, fit, area, log) {
        return Ok(Verdict::Fit(count as u64));
    }
    Ok(Verdict::Different(true))
}

// An input that is refused. The answers that the list may have instead cannot be passed over: only the fit has their n.
fn refused(found: Refusal, refusal: Option<u64>) -> Verdict {
    if refusal == Some(found.number() as u64) {
        return Verdict::Refused;
    }
    Verdict::Different(refusal.is_some())
}

// Restores the input, where the list has this refusal. A program refuses more than it takes before it restores.
fn restored<F: Read>(
    file: &mut F,
    input: &[u8],
    refusal: Option<u64>,
    area: &mut [f64],
    log: &mut [u64],
) -> io::Result<Verdict> {
    if input.len() > input::MOST {
        return Ok(refused(Refusal::Malformed, refusal));
    }
    match lbfgsb::restore(lbfgsb::empty(), area, log, input) {
        Err(found) => Ok(refused(found, refusal)),
        Ok(_) if refusal.is_some() => Ok(Verdict::Different(true)),
        Ok(fit) => accepted(file, input, fit, area, log),
    }
}

// The case of an input of so many bytes: these in words, the refusal, and the answers.
fn case_of<F: Read>(
    file: &mut F,
    bytes: usize,
    area: &mut [f64],
    log: &mut [u64],
) -> io::Result<Verdict> {
    let mut words = [[0u8; 8]; INPUT];
    if !fetch(file, &mut words, bytes.div_ceil(8))? {
        return Ok(Verdict::Different(false));
    }
    let Some(refusal) = fetch_word(file)? else {
        return Ok(Verdict::Different(false));
    };
    let input = words.as_flattened().get(..bytes).unwrap_or(&[]);
    restored(file, input, refusal_of(refusal), area, log)
}

// ---- the cases in turn

// Counts a case by what it shows, and answers whether there may be another. Where it differs its number is written, from 0 the first.
fn tallied<R: Print>(
    rt: &R,
    counts: &mut Counts,
    number: u64,
    verdict: Verdict,
) -> io::Result<bool> {
    counts.cases = counts.cases.wrapping_add(1);
    match verdict {
        Verdict::Refused => counts.refused = counts.refused.wrapping_add(1),
        Verdict::Fit(questions) => {
            counts.fits = counts.fits.wrapping_add(1);
            counts.questions = counts.questions.wrapping_add(questions);
        }
        Verdict::Different(more) => {
            println!(rt; "differs: case {number}")?;
            counts.different = counts.different.wrapping_add(1);
            return Ok(more);
        }
    }
    Ok(true)
}

// The next case, and whether there may be another.
fn one_case<R: Print, F: Read>(
    rt: &R,
    file: &mut F,
    area: &mut [f64],
    log: &mut [u64],
    counts: &mut Counts,
    number: u64,
) -> io::Result<bool> {
    let Some(bytes) = fetch_word(file)? else {
        return Ok(false);
    };
    let verdict = case_of(file, bytes as usize, area, log)?;
    tallied(rt, counts, number, verdict)
}

fn main(rt: HostRuntime) -> io::Result<()> {
    let Some(mut file) = cases::opened(&rt)? else {
        return Ok(());
    };
    let mut area = [0.0f64; input::AREA];
    let mut log = [0u64; input::LOG];
    let mut counts = Counts::default();
    cases::each_case(|number| one_case(&rt, &mut file, &mut area, &mut log, &mut counts, number))?;
    print!(rt; "{counts}")
}
