// The working area: one lent slice, in which vector k of n words stands at offset k * n.
#![tactic(auto)]

ghost use Rattle.std.specs.Prelude.{◌≡◌, ℕ, Float, ◌+◌, ◌*◌, ◌≤◌, ◌<◌, map, length, take, drop, ◌&&◌};
ghost use Rattle.definition.specs.Number.{to_float};
ghost use Rattle.std.specs.Float.Ieee.Scale.{finite};
ghost use Rattle.definition.specs.Vector.{dot as dot_of, all_finite};
ghost use Rattle.definition.specs.Problem.{area_words};
ghost use Rattle.area.specs.Area.{view, upd, words_at, put_word, copy_of, fill_of, difference_of, first_pair, vector_trial_gradient};
ghost use Rattle.area.specs.Area.{Vecs, rowwise, CallableAt, GivesEach};

// Vectors 0 to 7, and those of the pairs from FIRST_PAIR on, stay from call to call. 8 to 11 are scratch: whoever reads one has
// written it in the same call. 12 to 15 are free: no step, replay or opening writes them, so that they pass through every call
// but one that zeroes the area whole. Behind the pairs stand the columns of W, laid out anew for each model.

pub const X: usize = 0;

pub const G: usize = 1;

pub const LOWER: usize = 2;

pub const UPPER: usize = 3;

pub const X0: usize = 4;

pub const TRIAL: usize = 5;

pub const TRIAL_GRADIENT: usize = 6;

pub const DIRECTION: usize = 7;

// Vector 8. The path's direction is written by `Path::begin` and `Path::stop` of `cauchy`, and read last by the segment that ends the
// path. The step is written behind that, by `subspace::steps`; `subspace::moved` reads word i of it last and puts word i of the
// target in its place, which `subspace::set_direction` reads. (`judge::learn` puts the difference of the points here, for
// `compact::update`.)
pub const VELOCITY: usize = 8;

pub const STEP: usize = 8;

pub const TARGET: usize = 8;

// Vector 9. The path's displacement, and behind the path that of the Cauchy point. (`judge::learn`: the difference of the gradients.)
pub const DISPLACEMENT: usize = 9;

// Vector 10. The bounds met are written by `Path::begin` and `Path::stop` of `cauchy`; `cauchy::put_point`, with which the path ends,
// reads word i of them last and puts word i of the Cauchy point in its place, which `subspace` reads.
pub const ACTIVE: usize = 10;

pub const CAUCHY: usize = 10;

// Vector 11. In a segment B times the direction is read last by the curvature, before B times the displacement is made, which the
// slope reads. In `subspace::residual` word i of the residual is put in the place of word i of B times the displacement, read last there.
pub const PRODUCT_D: usize = 11;

pub const PRODUCT_Z: usize = 11;

// The first vector of the pairs: s and y of the pair in place k stand at FIRST_PAIR + 2 k and behind it, and the columns behind them all.
pub const FIRST_PAIR: usize = 16;

// The words that n coordinates and m pairs need.
pub fn words(n: usize, m: usize) -> usize
    requires { (n ≤ 65536) × (m ≤ 65536) }
    ensures { result ≡ area_words n m }
{
    n * (4 * m + 16) + 4 * m * m + 4 * m
}

// Word i of the vector.
// Kept: area and n are two parameters. A struct of both proves, and its writers owe two facts more: the same loan and the same n.
pub fn get(area: &[f64], n: usize, vector: usize, i: usize) -> f64
    requires { (vector * n + n ≤ length area.now) × (i < n) }
    ensures { result ≡ words_at area.now n i vector }
{
    area[vector * n + i]
}

pub fn put(area: &mut [f64], n: usize, vector: usize, i: usize, value: f64)
    requires { (vector * n + n ≤ length area.old) × (i < n) }
    ensures { view area.new n ≡ put_word (view area.old n) vector i value }
{
    area[vector * n + i] = value;
}

// Each word of the vector in turn becomes what `made` makes of the area and the word's place.
// Kept: an index. What is read and what is written stand in one lent slice.
pub fn set_each<F: Fn(&[f64], usize) -> f64>(area: &mut [f64], n: usize, vector: usize, made: F)
    requires callable { CallableAt (F.pre made) n (length area.old) }
    requires room { vector * n + n ≤ length area.old }
    ensures { (g : ℕ → (ℕ → Float) → Float) → GivesEach (F.post made) n (length area.old) g
        → view area.new n ≡ rowwise n vector g (view area.old n) }
{
    let start = vector * n;
    for i in 0..n {
        area[start + i] = made(area, i);
    }
}

// Vector `to` becomes vector `from`.
// Kept: `copy_within` takes 4.4 and 6.9 ns at n = 3 and 10, where this loop takes 3.1 and 5.0; at 64 it takes 11.6 for 12.3.
pub fn copy(area: &mut [f64], n: usize, to: usize, from: usize)
    requires { (to * n + n ≤ length area.old) × (from * n + n ≤ length area.old) }
    ensures { view area.new n ≡ copy_of to from (view area.old n) }
{
    let start = from * n;
    set_each(area, n, to, |area, i| area[start + i]);
}

// Each word of the vector becomes the value.
pub fn fill(area: &mut [f64], n: usize, vector: usize, value: f64)
    requires { vector * n + n ≤ length area.old }
    ensures { view area.new n ≡ fill_of n vector value (view area.old n) }
{
    let start = vector * n;
    area[start..start + n].fill(value);
}

// The vector becomes the slice of values.
pub fn store(area: &mut [f64], n: usize, vector: usize, values: &[f64])
    requires { (vector * n + n ≤ length area.old) × (length values.now ≡ n) }
    ensures { view area.new n ≡ upd (view area.old n) vector values.now }
{
    let start = vector * n;
    area[start..start + n].copy_from_slice(values);
}

// Vector `to` becomes vector `left` less vector `right`.
pub fn difference(area: &mut [f64], n: usize, to: usize, left: usize, right: usize)
    requires { (to * n + n ≤ length area.old) × (left * n + n ≤ length area.old) × (right * n + n ≤ length area.old) }
    ensures { view area.new n ≡ difference_of n to left right (view area.old n) }
{
    let left_start = left * n;
    let right_start = right * n;
    set_each(
        area,
        n,
        to,
        |area, i| area[left_start + i] - area[right_start + i],
    );
}

// The product of vectors `left` and `right`, from the left and from -0.0.
pub fn dot(area: &[f64], n: usize, left: usize, right: usize) -> f64
    requires { (left * n + n ≤ length area.now) × (right * n + n ≤ length area.now) }
    ensures { result ≡ dot_of n (view area.now n left) (view area.now n right) }
{
    let left_start = left * n;
    let right_start = right * n;
    let left = &area[left_start..left_start + n];
    let right = &area[right_start..right_start + n];
    left.iter().zip(right).map(|(x, y)| x * y).sum()
}

// Whether every word of the vector is finite.
pub fn all_finite(area: &[f64], n: usize, vector: usize) -> bool
    requires { vector * n + n ≤ length area.now }
    ensures { result ≡ all_finite n (view area.now n vector) }
{
    let start = vector * n;
    area[start..start + n].iter().all(|x| float::is_finite(*x))
}
