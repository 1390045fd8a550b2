// Replays a list of the original's answers for the numerical kernel and compares every bit. The first argument names the file;
// `oracle/README.md`, "The list of leaves", has its format.
#![tactic(auto)]

ghost use Rattle.std.specs.Prelude.{◌≡◌, ◌+◌, ◌*◌, ◌≤◌, ◌<◌, IsTrue, All, length};
ghost use Rattle.area.specs.Area.{first_pair};
ghost use Rattle.compact.specs.State.{Sound};

use cases::{Word, behind, size, word};
use compact::{Model, Shape};
use solve::{Matrix, Row, SIZE};
use std::io::Read;
use std::{fmt, io};

// A case, by the function that it tries.
#[derive(Clone, Copy, PartialEq, Eq)]
enum Kind {
    Solve,
    Update,
    Times,
    Geometry,
}

// A number that is no kind of case.
#[derive(Clone, Copy)]
struct UnknownKind;

impl TryFrom<usize> for Kind {
    type Error = UnknownKind;

    fn try_from(number: usize) -> Result<Self, UnknownKind> {
        match number {
            1 => Ok(Kind::Solve),
            2 => Ok(Kind::Update),
            3 => Ok(Kind::Times),
            4 => Ok(Kind::Geometry),
            _ => Err(UnknownKind),
        }
    }
}

impl Kind {
    // Where the vectors go that a case has behind its model.
    fn inputs(self) -> &'static [usize]
        ensures { All (λ p. p < first_pair) result.now }
    {
        match self {
            Kind::Solve => &[],
            Kind::Update => &[area::VELOCITY, area::DISPLACEMENT],
            Kind::Times => &[area::VELOCITY],
            Kind::Geometry => &[area::X, area::G, area::LOWER, area::UPPER],
        }
    }
}

// The neighbours of floats and the cases that are equal, and the cases that differ.
#[derive(Clone, Copy, Default)]
struct Counts {
    next_up: u64,
    solve: u64,
    update: u64,
    times: u64,
    geometry: u64,
    different: u64,
}

impl Counts {
    // One more case of this kind.
    fn add(&mut self, kind: Kind) {
        let count = match kind {
            Kind::Solve => &mut self.solve,
            Kind::Update => &mut self.update,
            Kind::Times => &mut self.times,
            Kind::Geometry => &mut self.geometry,
        };
        *count = count.wrapping_add(1);
    }
}

impl fmt::Display for Counts {
    fn fmt<W: fmt::Write>(&self, formatter: &mut fmt::Formatter<W>) -> fmt::Result {
        writeln!(formatter, "next_up {} equal", self.next_up)?;
        writeln!(formatter, "solve {} equal", self.solve)?;
        writeln!(formatter, "update {} equal", self.update)?;
        writeln!(formatter, "times {} equal", self.times)?;
        writeln!(formatter, "geometry {} equal", self.geometry)?;
        writeln!(formatter, "different {}", self.different)
    }
}

// n and maxcor of a case are at most this.
const MOST: usize = 16;

// The words of an area for so many coordinates and pairs.
const ROOM: usize = 1280;

// The words of the largest case.
const LARGEST: usize = 8_192;

// ---- solve: n, the rows, the right side; whether there is a solution, and its words

// A row of n words.
fn row(words: &[Word], n: usize) -> Row
    requires { n ≤ SIZE }
{
    let mut row = [0.0; SIZE];
    cases::put_floats(&mut row[..n], words);
    row
}

// n rows of n words.
fn rows(words: &[Word], n: usize) -> Matrix
    requires { n ≤ SIZE }
{
    let mut rows = [[0.0; SIZE]; SIZE];
    let mut rest = words;
    for place in rows[..n].iter_mut() {
        *place = row(rest, n);
        rest = behind(rest, n);
    }
    rows
}

// Whether the answer is that of the words.
fn is_solved(words: &[Word], n: usize, answer: Option<Row>) -> bool {
    let Some(solution) = answer else {
        return word(words, 0) == 0;
    };
    word(words, 0) == 1 && cases::are_floats(behind(words, 1), n, &solution)
}

fn solve_case(words: &[Word]) -> bool {
    let n = size(words, 0);
    if n > SIZE {
        return false;
    }
    let left = behind(words, 1);
    let right = behind(left, n * n);
    let answer = solve::solve(n, rows(left, n), row(right, n));
    is_solved(behind(right, n), n, answer)
}

// ---- a model: n, maxcor, the number of pairs, theta, and the pairs; then vectors

fn shape(words: &[Word]) -> Shape {
    Shape {
        n: size(words, 0),
        m: size(words, 1),
        pairs: size(words, 2),
        oldest: 0,
    }
}

// Whether the numbers of a case are in range, and an area of so many words has room.
fn fits(shape: Shape, room: usize) -> bool
    ensures { IsTrue result → Sound shape room × (shape.n ≤ 16) }
{
    shape.n <= MOST
        && shape.m <= MOST
        && shape.pairs <= shape.m
        && shape.oldest < shape.m
        && (area::FIRST_PAIR + 4 * shape.m) * shape.n <= room
}

// A vector of the area becomes the first words. The answer is the words behind them.
fn load<'a>(area: &mut [f64], n: usize, vector: usize, words: &'a [Word]) -> &'a [Word]
    requires { vector * n + n ≤ length area.old }
{
    cases::put_floats(&mut area[vector * n..vector * n + n], words);
    behind(words, n)
}

// The pairs of a case go to their places. The answer is the words behind them.
fn load_pairs<'a>(area: &mut [f64], shape: Shape, words: &'a [Word]) -> &'a [Word]
    requires { Sound shape (length area.old) }
{
    let end = area::FIRST_PAIR + 2 * shape.pairs;
    let mut rest = behind(words, 4);
    for vector in area::FIRST_PAIR..end {
        rest = load(area, shape.n, vector, rest);
    }
    rest
}

// The vectors behind the model go to their places. The answer is the words behind them.
fn load_inputs<'a>(area: &mut [f64], shape: Shape, kind: Kind, words: &'a [Word]) -> &'a [Word]
    requires { Sound shape (length area.old) }
{
    let mut rest = words;
    for vector in kind.inputs() {
        rest = load(area, shape.n, *vector, rest);
    }
    rest
}

// Whether a vector of the area has the bits of the words.
fn is_vector(area: &[f64], n: usize, vector: usize, words: &[Word]) -> bool
    requires { vector * n + n ≤ length area.now }
{
    cases::are_floats(words, n, &area[vector * n..vector * n + n])
}

// Whether the first word is 1 just where the vector is there, and the vector then has the bits of the words behind it.
// Kept: a bool, as the functions that are tried hand it back.
fn is_flagged(area: &[f64], n: usize, vector: usize, there: bool, words: &[Word]) -> bool
    requires { vector * n + n ≤ length area.now }
{
    if !there {
        return word(words, 0) == 0;
    }
    word(words, 0) == 1 && is_vector(area, n, vector, behind(words, 1))
}

// ---- update: a model, s, y; whether the pair is kept, theta, the number of pairs, whether there is one, s·y of the newest

// Whether the pairs are those of the words.
fn are_pairs(area: &[f64], shape: Shape, words: &[Word]) -> bool
    requires { Sound shape (length area.now) }
{
    let mut rest = words;
    for pair in 0..shape.pairs {
        let slot = compact::pair_slot(shape, pair);
        let second = behind(rest, shape.n);
        if !is_vector(area, shape.n, slot, rest) || !is_vector(area, shape.n, slot + 1, second) {
            return false;
        }
        rest = behind(second, shape.n);
    }
    true
}

// Whether the newest pair's s·y is the word behind a first word of 1, and that is 0 where there is no pair.
fn is_newest(area: &[f64], shape: Shape, words: &[Word]) -> bool
    requires { Sound shape (length area.now) }
{
    if shape.pairs == 0 {
        return word(words, 0) == 0;
    }
    let slot = compact::pair_slot(shape, shape.pairs - 1);
    word(words, 0) == 1 && cases::is_float(words, 1, area::dot(area, shape.n, slot, slot + 1))
}

// Whether the pairs and theta are those of a case and its answer. Where the old pairs and the new one, if it is kept, are more than
// maxcor, the oldest is dropped: s and y stand behind the old pairs, as one pair more.
fn is_updated(area: &[f64], shape: Shape, theta: f64, words: &[Word], answer: &[Word]) -> bool
    requires { Sound shape (length area.now) }
{
    let offered = size(words, 2).wrapping_add(size(answer, 0));
    let most = size(words, 1);
    let all = behind(words, 4);
    let pairs = if offered > most {
        behind(behind(all, shape.n), shape.n)
    } else {
        all
    };
    cases::is_float(answer, 1, theta)
        && cases::is_count(answer, 2, shape.pairs)
        && offered.min(most) == shape.pairs
        && is_newest(area, shape, behind(answer, 3))
        && are_pairs(area, shape, pairs)
}

fn update_case(area: &mut [f64], shape: Shape, theta: f64, words: &[Word], answer: &[Word]) -> bool
    requires { Sound shape (length area.old) }
{
    let updated = compact::update(area, shape, theta);
    is_updated(area, updated.shape, updated.theta, words, answer)
}

// ---- times: a model, v; whether there is a product, and its words
// ---- geometry: a model, x, g, lower, upper; whether there is a Cauchy point, its words, which coordinates are free, whether there
// is a target, and its words

// Whether coordinate i of the Cauchy point lies strictly between its bounds.
fn is_free(area: &[f64], n: usize, i: usize) -> bool
    requires { (first_pair * n ≤ length area.now) × (i < n) }
{
    let x = area::get(area, n, area::CAUCHY, i);
    area::get(area, n, area::LOWER, i) < x && x < area::get(area, n, area::UPPER, i)
}

// Whether the free coordinates are those that the words show by 1.
fn are_free(area: &[f64], n: usize, words: &[Word]) -> bool
    requires { first_pair * n ≤ length area.now }
{
    (0..n).all(|i| u64::from(is_free(area, n, i)) == word(words, i))
}

// Whether the Cauchy point, where there is one, is that of the words, with its free coordinates.
// Kept: a bool, by the same reason.
fn is_cauchy(area: &[f64], n: usize, there: bool, words: &[Word]) -> bool
    requires { first_pair * n ≤ length area.now }
{
    is_flagged(area, n, area::CAUCHY, there, words)
        && (!there || are_free(area, n, behind(behind(words, 1), n)))
}

// The product of the pairs' model with v, or its Cauchy point and the target from there, compared with the answer.
fn model_case(area: &mut [f64], shape: Shape, theta: f64, kind: Kind, answer: &[Word]) -> bool
    requires { Sound shape (length area.old) × (shape.n ≤ 16) }
{
    let mut model = Model::new(shape, theta);
    model.build(area);
    if kind == Kind::Times {
        let to = area::PRODUCT_D;
        let made = compact::product(area, &model, to, area::VELOCITY);
        return is_flagged(area, shape.n, to, made, answer);
    }
    let reached = cauchy::generalized_cauchy(area, &model);
    if !is_cauchy(area, shape.n, reached, answer) {
        return false;
    }
    let target = behind(answer, 1 + 2 * shape.n);
    if !reached {
        return word(target, 0) == 0;
    }
    let made = subspace::primal_minimize(area, &model);
    is_flagged(area, shape.n, area::TARGET, made, target)
}

// ---- the cases in turn

// Loads the model with the vectors behind it, and compares.
fn loaded_case(area: &mut [f64], shape: Shape, kind: Kind, words: &[Word]) -> bool
    requires { Sound shape (length area.old) × (shape.n ≤ 16) }
{
    let inputs = load_pairs(area, shape, words);
    let answer = load_inputs(area, shape, kind, inputs);
    let theta = cases::float(words, 3);
    if kind == Kind::Update {
        return update_case(area, shape, theta, words, answer);
    }
    model_case(area, shape, theta, kind, answer)
}

fn is_equal(kind: Kind, words: &[Word]) -> bool {
    if kind == Kind::Solve {
        return solve_case(words);
    }
    let mut area = [0.0f64; ROOM];
    let shape = shape(words);
    fits(shape, ROOM) && loaded_case(&mut area, shape, kind, words)
}

// Counts the case of a number, with its words, by the number of its kind. Where it differs, its number is written.
// Kept: a number, since the list has the kind as a word.
fn judge<R: Print>(
    rt: &R,
    counts: &mut Counts,
    number: u64,
    kind: usize,
    words: &[Word],
) -> io::Result<()> {
    if let Ok(kind) = Kind::try_from(kind) {
        if is_equal(kind, words) {
            counts.add(kind);
            return Ok(());
        }
    }
    counts.different = counts.different.wrapping_add(1);
    println!(rt; "case {number} differs")
}

// The next case, and whether there may be another.
fn one_case<R: Print, F: Read>(
    rt: &R,
    file: &mut F,
    counts: &mut Counts,
    number: u64,
) -> io::Result<bool> {
    let mut head = [[0u8; 8]; 2];
    if !cases::fetch(file, &mut head, 2)? {
        return Ok(false);
    }
    let mut words = [[0u8; 8]; LARGEST];
    if cases::fetch(file, &mut words, size(&head, 1))? {
        judge(rt, counts, number, size(&head, 0), &words)?;
        return Ok(true);
    }
    println!(rt; "case {number} is cut")?;
    Ok(false)
}

// How many of these two neighbours are right: from 1.0 up is 1 + 2^-52, and from 0 up is 2^-1074.
fn neighbours() -> u64 {
    u64::from(is_above(1.0, 0x3FF0_0000_0000_0001)) + u64::from(is_above(0.0, 1))
}

// Whether the float above x is that of the word.
fn is_above(x: f64, word: u64) -> bool {
    float::float_to_word(float::next_up(x)) == word
}

fn main(rt: HostRuntime) -> io::Result<()> {
    let Some(mut file) = cases::opened(&rt)? else {
        return Ok(());
    };
    let mut counts = Counts {
        next_up: neighbours(),
        ..Counts::default()
    };
    cases::each_case(|number| one_case(&rt, &mut file, &mut counts, number))?;
    print!(rt; "{counts}")
}
