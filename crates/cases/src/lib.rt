// What the programs that run cases share: words of 64 bits in bytes and in a file, the lowest byte first, and case after case.
#![tactic(auto)]

ghost use Rattle.std.specs.Prelude.{◌≡◌, ◌/◌, length, drop};
ghost use Rattle.std.specs.Simd.{first_chunks};
ghost use Rattle.cases.specs.Cases.{CasesFrom};

use std::fs::File;
use std::io::{ErrorKind, Read};
use std::rt::{Env, Files};
use std::{env, io};

// A word, as it stands in a file.
pub type Word = [u8; 8];

// ---- words

// The words of bytes. Bytes that are no whole word count for nothing.
pub fn words(bytes: &[u8]) -> &[Word]
    ensures { result.now ≡ first_chunks 8 (length bytes.now / 8) bytes.now }
{
    let (words, _) = bytes.as_chunks::<8>();
    words
}

// The words behind the first n.
pub fn behind(words: &[Word], n: usize) -> &[Word]
    ensures { result.now ≡ drop n words.now }
{
    words.get(n..).unwrap_or(&[])
}

// Word i, and 0 past the end.
// Kept: beside `record::word_of`. What tries the crates reads its files without them.
pub fn word(words: &[Word], i: usize) -> u64 {
    words.get(i).map_or(0, |bytes| u64::from_le_bytes(*bytes))
}

pub fn size(words: &[Word], i: usize) -> usize {
    word(words, i) as usize
}

pub fn float(words: &[Word], i: usize) -> f64 {
    float::word_to_float(word(words, i))
}

// Whether k is word i.
pub fn is_count(words: &[Word], i: usize, k: usize) -> bool {
    size(words, i) == k
}

// Whether x has the bits of word i. All NaNs are one word.
pub fn is_float(words: &[Word], i: usize, x: f64) -> bool {
    float::float_to_word(x) == word(words, i)
}

// Whether there are n floats or more, and n of them have the bits of the words, from the first on.
pub fn are_floats(words: &[Word], n: usize, floats: &[f64]) -> bool {
    let Some(floats) = floats.get(..n) else {
        return false;
    };
    floats
        .iter()
        .enumerate()
        .all(|(i, x)| is_float(words, i, *x))
}

// The words, as `made` makes them, from the first on, as many as there are places.
fn put<T: Copy, F: Fn(u64) -> T>(places: &mut [T], words: &[Word], made: F)
    requires { F.IsAlwaysCallable made }
{
    for (i, place) in places.iter_mut().enumerate() {
        *place = made(word(words, i));
    }
}

// The floats of the words, as many as there are places.
pub fn put_floats(places: &mut [f64], words: &[Word]) {
    put(places, words, float::word_to_float);
}

// The words, as many as there are places.
pub fn put_words(places: &mut [u64], words: &[Word]) {
    put(places, words, |word| word);
}

// ---- a file

// The file that the first argument names. Where it cannot be opened that is said, and there is none.
pub fn opened<R: Env + Files + Alloc + Eprint>(rt: &R) -> io::Result<Option<R::File>> {
    let named = env::args(rt)?.nth(1);
    let path = named.unwrap_or(String::new(rt.alloc()));
    match File::open(rt, path.as_str()) {
        Ok(file) => Ok(Some(file)),
        Err(error) => {
            eprintln!(rt; "{path}: {error}")?;
            Ok(None)
        }
    }
}

// Reads as many bytes as there are places, and answers whether they came: they do not where the file ends before.
pub fn fetch_bytes<F: Read>(file: &mut F, bytes: &mut [u8]) -> io::Result<bool> {
    match file.read_exact(bytes) {
        Ok(()) => Ok(true),
        Err(error) if error.kind() == ErrorKind::UnexpectedEof => Ok(false),
        Err(error) => Err(error),
    }
}

// Reads so many words to the first places, and answers whether they came: they do not where there are no such places either.
pub fn fetch<F: Read>(file: &mut F, places: &mut [Word], count: usize) -> io::Result<bool> {
    let Some(first) = places.get_mut(..count) else {
        return Ok(false);
    };
    fetch_bytes(file, first.as_flattened_mut())
}

// The next word of a file, if there is one.
pub fn fetch_word<F: Read>(file: &mut F) -> io::Result<Option<u64>> {
    let mut words = [[0u8; 8]];
    let came = fetch(file, &mut words, 1)?;
    Ok(came.then(|| word(&words, 0)))
}

// ---- the cases in turn

// Does case after case, from number 0 on, until one answers that there is no other. Nothing says that a file ends, so they are counted
// up to the most.
pub fn each_case<F: FnMut(u64) -> io::Result<bool>>(mut one_case: F) -> io::Result<()>
    requires { F.IsAlwaysCallable one_case }
    ensures { CasesFrom F.step one_case 0 result }
{
    for number in 0..u64::MAX {
        if !one_case(number)? {
            return Ok(());
        }
    }
    Ok(())
}
