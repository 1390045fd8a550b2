// The record: its words as bytes, both sums, the setup in words; reading up to the entries, with every refusal in order, and writing.
#![tactic(auto)]

ghost use Rattle.std.specs.Prelude.{◌≡◌, ℕ, ◌+◌, ◌-◌, ◌*◌, ◌<◌, ◌≤◌, true, ◌++◌, map, length, take, drop, replicate, if◌then◌else◌, slice_index, slice_range};
ghost use Rattle.std.specs.Prelude.{nat_le};
ghost use Rattle.definition.specs.Number.{to_word, zero64};
ghost use Rattle.definition.specs.Problem.{validate, ◌then◌, or_else};
ghost use Rattle.definition.specs.Record.{number_of, bytes_of, words_of, sums as sums_over, added as added_to};
ghost use Rattle.definition.specs.Record.{float_given, count_given, has_box, scheme_in, setup_in, malformed, check_area};
ghost use Rattle.definition.specs.Record.{optional_float, scheme_flag, setup_words, bytes};
ghost use Rattle.problem.specs.Setups.{scheme_of, check_of, setup_of};
ghost use Rattle.record.specs.Records.{sums_of, setup_size, entry_size, framed_in, all_words, words_in, entry_bytes, sums_agree, Counted, Placed};
ghost use Rattle.record.specs.Records.{OptionsIn, most_floats, floats_of, setup_from, Parsing};
ghost use Rattle.record.specs.Records.{first_word, leading_words, CanSave, saved_count, saved_words, saved_record, Summed, trailer_of, overwritten};

use problem::{Options, Refusal, Scheme, Setup};

// The one version that is read and written.
const VERSION: u64 = 1;

// The least bit of word 0 of a setup that must be 0, as all above it.
const SPARE: u64 = 0x4_0000;

// The word of a float that is absent.
const ABSENT: u64 = 0x7FF8_0000_0000_0000;

// The floats of three vectors of as many coordinates as a byte says.
const FLOATS: usize = 768;

// ---- words and bytes

// The word of the eight bytes from `at` on, the lowest first.
pub fn word_at(input: &[u8], at: usize) -> u64
    requires { at + 8 ≤ length input.now }
    ensures { result ≡ number_of (take 8 (drop at input.now)) }
{
    u64::from_le_bytes(*input[at..].first_chunk().unwrap())
}

// The eight bytes of a word, from `at` on, the lowest first.
pub fn put_word(out: &mut [u8], at: usize, word: u64)
    requires { at + 8 ≤ length out.old }
    ensures { out.new ≡ take at out.old ++ bytes_of 8 word ++ drop (at + 8) out.old }
{
    out[at..at + 8].copy_from_slice(&word.to_le_bytes());
}

// ---- the sums

// The sum of words, and the sum of its running sums, each modulo 2^64.
#[derive(Clone, Copy, Default)]
pub struct Sums {
    pub plain: u64,
    pub running: u64,
}

impl Sums {
    // One more word.
    fn added(self, word: u64) -> Sums
        ensures { sums_of result ≡ added_to word (sums_of self) }
    {
        let plain = self.plain.wrapping_add(word);
        let running = self.running.wrapping_add(plain);
        Sums { plain, running }
    }
}

// The sums of the words that some bytes are.
fn sums_in(bytes: &[u8]) -> Sums
    ensures { sums_of result ≡ sums_over (all_words bytes.now) }
{
    (0..bytes.len() / 8).fold(Sums::default(), |sums, k| sums.added(word_at(bytes, 8 * k)))
}

// ---- lengths

// The words of a setup of n coordinates, with or without a box.
pub fn setup_words(bounded: bool, n: usize) -> usize
    requires { n ≤ 65536 }
    ensures { result ≡ setup_size bounded n }
{
    7 + if bounded { 3 * n } else { n }
}

// The words of an entry of a kind, where there are n coordinates; none where the kind is unknown.
// Kept: a number, since in a log and in a record a kind is a word.
pub fn entry_length(kind: u64, n: usize) -> Option<usize>
    requires { n ≤ 65536 }
    ensures { result ≡ count_given (entry_size kind n) }
{
    match kind {
        1 => Some(2),
        2 => Some(n + 1),
        3..=6 => Some(1),
        _ => None,
    }
}

// Whether a log of `room` words, of which `words` are taken, has room for `length` more.
pub fn has_room(words: usize, length: usize, room: usize) -> bool
    ensures { result ≡ nat_le (words + length) room }
{
    words <= room && length <= room - words
}

// ---- reading

// A record that is framed: the bytes of its words ahead of the trailer, the coordinates and the words of the setup.
#[derive(Clone, Copy)]
pub struct Frame<'a> {
    pub bytes: &'a [u8],
    pub n: usize,
    pub setup: usize,
}

// What the checks ahead of the entries find.
#[derive(Clone, Copy)]
pub struct Parsed<'a> {
    pub options: Options,
    pub frame: Frame<'a>,
}

// At least a trailer, a known version, and as many words as the trailer says.
fn is_framed(input: &[u8]) -> bool
    ensures { result ≡ framed_in input.now }
{
    let size = input.len();
    if size < 32 {
        return false;
    }
    if word_at(input, size - 16) != VERSION {
        return false;
    }
    let count = word_at(input, size - 8) as usize;
    count <= (size - 32) / 8
}

// Word i of the words that some bytes are, and 0 past the last.
pub fn word_of(bytes: &[u8], i: usize) -> u64
    ensures { result ≡ slice_index (all_words bytes.now) i }
{
    if i < bytes.len() / 8 {
        word_at(bytes, 8 * i)
    } else {
        0
    }
}

// Whether word 0 of a setup says that there is a box.
fn has_box(word: u64) -> bool
    ensures { result ≡ has_box word }
{
    word / 0x1_0000 % 2 == 1
}

// Where the record stands, by its trailer.
fn frame_of(input: &[u8]) -> Frame<'_>
    requires { framed_in input.now ≡ true }
    ensures { Placed input.now result }
{
    let end = input.len() - 32;
    let count = word_at(input, end + 24) as usize;
    let bytes = &input[end - 8 * count..end];
    let first = word_of(bytes, 0);
    let n = (first % 256) as usize;
    Frame {
        bytes,
        n,
        setup: setup_words(has_box(first), n),
    }
}

// Both sums are the trailer's.
fn sums_agree(input: &[u8], frame: Frame) -> bool
    requires { 32 ≤ length input.now }
    ensures { result ≡ sums_agree input.now frame.entry }
{
    let sums = sums_in(frame.bytes);
    let end = input.len() - 32;
    sums.plain == word_at(input, end) && sums.running == word_at(input, end + 8)
}

// A float that may be absent.
fn float_given(word: u64) -> Option<f64>
    ensures { result ≡ float_given word }
{
    if word == ABSENT {
        None
    } else {
        Some(float::word_to_float(word))
    }
}

// A count that may be absent.
fn count_given(word: u64) -> Option<usize>
    ensures { result ≡ count_given word }
{
    if word == 0 { None } else { Some(word as usize) }
}

// The scheme of differences, by word 0.
fn scheme_in(word: u64) -> Scheme
    ensures { scheme_of result ≡ scheme_in word }
{
    if word / 0x2_0000 % 2 == 1 {
        Scheme::Central
    } else {
        Scheme::Forward
    }
}

// The floats of `count` words from the byte `at` on, then zeros.
// Kept: `array::from_fn` asks at each of the 768 whether it is a word's, and takes 639 to 650 ns for 9 words where this loop takes 131.
fn floats_at(bytes: &[u8], at: usize, count: usize) -> [f64; FLOATS]
    requires { (at + 8 * count ≤ length bytes.now) × (count ≤ most_floats) }
    ensures { result ≡ floats_of (words_of count (drop at bytes.now)) }
{
    let mut floats = [0.0; FLOATS];
    for (i, float) in floats[0..count].iter_mut().enumerate() {
        *float = float::word_to_float(word_at(bytes, at + 8 * i));
    }
    floats
}

impl<'a> Frame<'a> {
    // How many words there are.
    fn count(self) -> usize
        ensures { result ≡ length (words_in self.entry) }
    {
        self.bytes.len() / 8
    }

    // Word i, and 0 past the last.
    fn word(self, i: usize) -> u64
        ensures { result ≡ slice_index (words_in self.entry) i }
    {
        word_of(self.bytes, i)
    }

    // Fewer words than the setup's, or spare bits in its first.
    fn is_malformed(self) -> bool
        requires { Counted self }
        ensures { result ≡ malformed (words_in self.entry) }
    {
        self.count() < self.setup || SPARE <= self.word(0)
    }

    // The setup but for its vectors.
    fn options(self) -> Options
        ensures { OptionsIn (words_in self.entry) result }
    {
        let first = self.word(0);
        Options {
            bounded: has_box(first),
            maxiter: count_given(self.word(1)),
            maxfev: count_given(self.word(2)),
            tol: float_given(self.word(3)),
            ftol: float_given(self.word(4)),
            gtol: float_given(self.word(5)),
            maxcor: count_given(first / 256 % 256),
            eps: float_given(self.word(6)),
            scheme: scheme_in(first),
        }
    }

    // The vectors of the setup: the start, and with a box the lower and the upper bounds behind it; then zeros.
    // Kept: fixed memory, of which the checks of a setup read three parts of n.
    pub fn vectors(self) -> [f64; FLOATS]
        requires { (7 ≤ self.setup) × (self.setup ≤ length (words_in self)) × (self.setup ≤ 7 + most_floats) }
        ensures { result ≡ floats_of (slice_range (words_in self.entry) 7 self.entry.setup) }
    {
        floats_at(self.bytes, 56, self.setup - 7)
    }

    // The bytes of the words behind the setup's.
    pub fn entries(self) -> &'a [u8]
        requires { 8 * self.setup ≤ length self.bytes.now }
        ensures { result.now ≡ entry_bytes self.entry }
    {
        &self.bytes[8 * self.setup..]
    }

    // What is wrong with the setup, and then with an area of `available` words.
    fn check_setup(self, options: Options, available: usize) -> Result<(), Refusal>
        requires { Counted self × (self.setup ≤ length (words_in self)) × OptionsIn (words_in self) options }
        ensures { let s = setup_in (words_in self.entry) in
            (l : ℕ) → check_of result ≡ (validate s then check_area (record { area = available; log = l }) s) }
    {
        let vectors = self.vectors();
        check_start(setup_from(options, &vectors, self.n), available)
    }
}

// The setup of options and three vectors of n words one behind the other.
pub fn setup_from(options: Options, vectors: &[f64], n: usize) -> Setup<'_>
    requires { 3 * n ≤ length vectors.now }
    ensures setup { setup_of result ≡ setup_from options vectors.now n }
    ensures options { result.options ≡ options }
{
    Setup {
        options,
        x0: &vectors[..n],
        lower: &vectors[n..2 * n],
        upper: &vectors[2 * n..3 * n],
    }
}

// What is wrong with a setup, and then with an area of `size` words.
pub fn check_start(setup: Setup, size: usize) -> Result<(), Refusal>
    ensures { let s = setup_of setup.entry in
        (l : ℕ) → check_of result ≡ (validate s then check_area (record { area = size; log = l }) s) }
{
    setup.validate()?;
    let needed = area::words(setup.x0.len(), setup.options.places());
    if size < needed {
        return Err(Refusal::AreaShort { needed });
    }
    Ok(())
}

// The checks of a record ahead of its entries, for a working area of `available` words: of any bytes, the first refusal, or the setup and
// where it stands.
pub fn check(input: &[u8], available: usize) -> Result<Parsed<'_>, Refusal>
    ensures { Parsing input.now available result }
{
    if !is_framed(input) {
        return Err(Refusal::Malformed);
    }
    let frame = frame_of(input);
    if !sums_agree(input, frame) {
        return Err(Refusal::SumsDiffer);
    }
    if frame.is_malformed() {
        return Err(Refusal::Malformed);
    }
    let options = frame.options();
    frame.check_setup(options, available)?;
    Ok(Parsed { options, frame })
}

// ---- writing

fn float_word(value: Option<f64>) -> u64
    ensures { result ≡ optional_float value }
{
    value.map_or(ABSENT, float::float_to_word)
}

fn scheme_flag(scheme: Scheme) -> u64
    ensures { result ≡ scheme_flag (scheme_of scheme) }
{
    match scheme {
        Scheme::Central => 2,
        Scheme::Forward => 0,
    }
}

fn box_flag(bounded: bool) -> u64
    ensures { result ≡ (if bounded then 1 else 0) }
{
    u64::from(bounded)
}

// Word 0 of a setup of n coordinates.
fn first_word(options: Options, n: usize) -> u64
    requires { (n ≤ 255) × (or_else options.maxcor 0 ≤ 255) }
    ensures { result ≡ first_word options n }
{
    let flags = box_flag(options.bounded) + scheme_flag(options.scheme);
    n as u64 + 256 * options.maxcor.unwrap_or(0) as u64 + 65536 * flags
}

// Word i of the seven ahead of the vectors.
fn leading_word(options: Options, n: usize, i: usize) -> u64
    requires { (n ≤ 255) × (or_else options.maxcor 0 ≤ 255) × (i < 7) }
    ensures { result ≡ slice_index (leading_words options n) i }
{
    match i {
        0 => first_word(options, n),
        1 => options.maxiter.unwrap_or(0) as u64,
        2 => options.maxfev.unwrap_or(0) as u64,
        3 => float_word(options.tol),
        4 => float_word(options.ftol),
        5 => float_word(options.gtol),
        _ => float_word(options.eps),
    }
}

// Word i of the bounds, lower before upper.
fn bound_word(lower: &[f64], upper: &[f64], i: usize) -> u64
    requires { i < length lower.now + length upper.now }
    ensures { result ≡ slice_index (map to_word lower.now ++ map to_word upper.now) i }
{
    let n = lower.len();
    if i < n {
        return float::float_to_word(lower[i]);
    }
    float::float_to_word(upper[i - n])
}

// Word i of the setup.
// Kept: by its index. Over the chain of the words, enumerated, the check that `8 * i` fits stops at the prover's limit of steps.
fn setup_word(setup: Setup, i: usize) -> u64
    requires { CanSave setup
        × (i < setup_size setup.options.bounded (length setup.x0.now)) }
    ensures { result ≡ slice_index (setup_words (setup_of setup.entry)) i }
{
    let n = setup.x0.len();
    if i < 7 {
        return leading_word(setup.options, n, i);
    }
    if i - 7 < n {
        return float::float_to_word(setup.x0[i - 7]);
    }
    bound_word(setup.lower, setup.upper, i - 7 - n)
}

// Word i of the setup and the log.
fn saved_word(setup: Setup, log: &[u64], i: usize) -> u64
    requires { CanSave setup
        × (i < saved_count setup log.now) }
    ensures { result ≡ slice_index (saved_words (setup_of setup.entry) log.now) i }
{
    let size = setup_words(setup.options.bounded, setup.x0.len());
    if i < size {
        setup_word(setup, i)
    } else {
        log[i - size]
    }
}

// The setup and the log from the first byte on, and their sums.
// Kept: a fold over the words has no proof, since its closure would change the output, whose length each write needs.
fn put_words(setup: Setup, log: &[u64], out: &mut [u8]) -> Sums
    requires { CanSave setup
        × (8 * saved_count setup log.now ≤ length out.old) }
    ensures { Summed (saved_words (setup_of setup.entry) log.now) out.old result out.new }
{
    let count = setup_words(setup.options.bounded, setup.x0.len()) + log.len();
    let mut sums = Sums::default();
    for i in 0..count {
        let word = saved_word(setup, log, i);
        put_word(out, 8 * i, word);
        sums = sums.added(word);
    }
    sums
}

// The trailer, behind `count` words.
fn put_trailer(out: &mut [u8], sums: Sums, count: usize)
    requires { 8 * count + 32 ≤ length out.old }
    ensures { out.new ≡ take (8 * count) out.old ++ bytes (trailer_of sums count) ++ drop (8 * count + 32) out.old }
{
    let at = 8 * count;
    put_word(out, at, sums.plain);
    put_word(out, at + 8, sums.running);
    put_word(out, at + 16, VERSION);
    put_word(out, at + 24, count as u64);
}

// The record of a setup and a log, from the first byte of `out` on; what is behind it stays.
pub fn write(setup: Setup, log: &[u64], out: &mut [u8])
    requires { CanSave setup
        × (8 * (saved_count setup log.now + 4) ≤ length out.old) }
    ensures { out.new ≡ overwritten (bytes (saved_record (setup_of setup.entry) log.now)) out.old }
{
    let sums = put_words(setup, log, out);
    let count = setup_words(setup.options.bounded, setup.x0.len()) + log.len();
    put_trailer(out, sums, count);
}
