// `solve`: Gauss elimination with the pivots of the definition, on a matrix taken by value. One function for each definition.
#![tactic(auto)]

ghost use Rattle.std.specs.Prelude.{◌≡◌, cond, false, ◌+◌, ◌≤◌, ◌<◌};
ghost use Rattle.std.specs.Float.Ieee.{is_nan};
ghost use Rattle.definition.specs.Number.{over, abs as abs_of, max as max_of, to_word, magnitude_le};
ghost use Rattle.definition.specs.Vector.{fold_to, word};
ghost use Rattle.definition.specs.Solve.{row, entry, scale_of, pivot_of, less_row, pivots as pivots_of, solve as solve_of};
ghost use Rattle.solve.specs.Steps.{Eliminates, regular as regular_of};
ghost use Rattle.solve.specs.Factors.{Clears};

mod factors;

pub use factors::Factors;

// The rows and columns of a system's array: the first n of them are read and written.
pub const SIZE: usize = 32;

pub type Row = [f64; SIZE];

// Kept: n is passed beside the array. It is the length of the right side and of the solution too, which a struct of array and n would not hold.
pub type Matrix = [Row; SIZE];

// The larger of most and the magnitude of x, where most is not a NaN: one comparison.
fn larger_magnitude(most: f64, x: f64) -> f64
    requires { is_nan most ≡ false }
    ensures { (is_nan result ≡ false) × (result ≡ max_of most (abs_of x)) }
{
    let magnitude = float::abs(x);
    if most < magnitude { magnitude } else { most }
}

// The largest of most and the magnitudes of a row.
fn row_scale(row: &Row, n: usize, most: f64) -> f64
    requires { (n ≤ SIZE) × (is_nan most ≡ false) }
    ensures { (is_nan result ≡ false) × (result ≡ fold_to n (λ j m. max_of m (abs_of (word row.now j))) most) }
{
    let mut largest = most;
    for &x in &row[..n] {
        largest = larger_magnitude(largest, x);
    }
    largest
}

// The largest magnitude, a NaN passed over.
fn scale(matrix: &Matrix, n: usize) -> f64
    requires { n ≤ SIZE }
    ensures { result ≡ scale_of n matrix.now }
{
    let mut most = 0.0f64;
    for row in &matrix[..n] {
        most = row_scale(row, n, most);
    }
    most
}

// The word of the magnitude of row i's entry in column k: words are in the order of magnitudes.
fn size(matrix: &Matrix, i: usize, k: usize) -> u64
    requires { (i < SIZE) × (k < SIZE) }
    ensures { result ≡ to_word (abs_of (entry matrix.now i k)) }
{
    float::float_to_word(float::abs(matrix[i][k]))
}

// Among rows k to n - 1 the last with the largest entry in column k.
fn pivot(matrix: &Matrix, n: usize, k: usize) -> usize
    requires { (k < n) × (n ≤ SIZE) }
    ensures { (result < n) × (result ≡ pivot_of n matrix.now k) }
{
    (k..n).max_by_key(|&i| size(matrix, i, k)).unwrap_or(k)
}

// Row i, less a multiple of row k, at the columns past k. Row k is lent as top, apart from the matrix, so that the compiler can make vector code of the loop.
// Kept: an index. The proof lacks what a slice holds once `iter_mut().zip(..)` is given up, and with `enumerate` an index would stay.
fn less_row(matrix: &mut Matrix, top: &Row, n: usize, multiplier: f64, k: usize, i: usize)
    requires { (k < i) × (i < n) × (n ≤ SIZE) × (row matrix.old k ≡ top.now) }
    ensures { (matrix.new ≡ less_row n multiplier matrix.old k i) × (row matrix.new k ≡ row matrix.old k) }
{
    for j in k + 1..n {
        matrix[i][j] -= multiplier * top[j];
    }
}

// Row i, less the multiple of row k that clears its entry in column k. Row k is lent as top; the answer is the multiplier.
fn less_pivot(matrix: &mut Matrix, top: &Row, n: usize, k: usize, i: usize) -> f64
    requires { (k < i) × (i < n) × (n ≤ SIZE) × (row matrix.old k ≡ top.now) }
    ensures { (result ≡ over (entry matrix.old i k) (entry matrix.old k k))
        × (matrix.new ≡ less_row n result matrix.old k i) × (row matrix.new k ≡ row matrix.old k) }
{
    let multiplier = matrix[i][k] / matrix[k][k];
    less_row(matrix, top, n, multiplier, k, i);
    multiplier
}

// Every row below row k. The answer is the multipliers, each at its row's place.
// Kept: an index. It is the row's as well as the place's, and over the places past k it would be counted from 0, and k + 1 added for the row.
fn eliminate(matrix: &mut Matrix, n: usize, k: usize) -> Row
    requires { (k < n) × (n ≤ SIZE) }
    ensures { Eliminates n k matrix.old result matrix.new }
{
    let top = matrix[k];
    let mut multipliers = [0.0; SIZE];
    for i in k + 1..n {
        multipliers[i] = less_pivot(matrix, &top, n, k, i);
    }
    multipliers
}

// Whether a value is a pivot: finite, and above the threshold in magnitude.
#[tactic(auto, using(float::proofs::Constants::pivot_threshold_is))]
fn pivots(scale: f64, value: f64) -> bool
    ensures { result ≡ pivots_of scale value }
{
    float::is_finite(value) && !(float::abs(value) <= float::PIVOT_THRESHOLD * scale)
}

// A column that is cleared: the row where its pivot stood, and the multipliers of the rows below.
#[derive(Clone, Copy)]
struct Cleared {
    row: usize,
    multipliers: Row,
}

// Column k, where it has a pivot: that is brought to row k, and the rows below are cleared.
fn column(matrix: &mut Matrix, n: usize, scale: f64, k: usize) -> Option<Cleared>
    requires { (k < n) × (n ≤ SIZE) }
    ensures { Clears n scale k matrix.old result matrix.new }
{
    let row = pivot(matrix, n, k);
    matrix.swap(k, row);
    if !pivots(scale, matrix[k][k]) {
        return None;
    }
    let multipliers = eliminate(matrix, n, k);
    Some(Cleared { row, multipliers })
}

// Whether the matrix's scale lets elimination begin.
fn regular(scale: f64) -> bool
    ensures { result ≡ regular_of scale }
{
    float::is_finite(scale) && !(scale == 0.0)
}

// The solution of the system of the first n rows and columns.
pub fn solve(n: usize, matrix: Matrix, right: Row) -> Option<Row>
    requires { n ≤ SIZE }
    ensures { result ≡ solve_of n matrix right }
{
    let mut factors = Factors::none();
    factors.factor(n, matrix);
    factors.solve_in_range(n, right)
}
