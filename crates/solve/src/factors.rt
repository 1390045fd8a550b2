// What the elimination of a matrix leaves for every right side, and the solution by it.
ghost use Rattle.std.specs.Prelude.{◌≡◌, ℕ, true, false, ltb, ◌+◌, ◌-◌, ◌≤◌, ◌<◌};
ghost use Rattle.std.specs.List.{list_all};
ghost use Rattle.std.specs.Float.Ieee.Scale.{finite};
ghost use Rattle.definition.specs.Number.{times};
ghost use Rattle.definition.specs.Vector.{word, sum as sum_of};
ghost use Rattle.definition.specs.Solve.{row, entry, system};
ghost use Rattle.definition.specs.Solve.{back_row, backward as backward_of, solve as solve_of};
ghost use Rattle.solve.specs.Steps.{OrderInRange, cleared_to, forward_to};

use crate::{Cleared, Matrix, Row, SIZE, column, regular, scale};

// The triangular rows; in row k of the multipliers the multiples of row k that were taken from the rows below; in place k of order the row that
// changed places with row k; and whether every column has its pivot.
// Kept: a flag, and factors that are filled in place. An Option of them by value is 16 KB that each return copies: `compact::Model` has the figures.
#[derive(Drop)]
pub struct Factors {
    pub rows: Matrix,
    // Kept: two arrays. The law of the elimination takes them apart, so an array of pairs would be read by two maps in each contract.
    pub multipliers: Matrix,
    pub order: [usize; SIZE],
    pub complete: bool,
}

impl Factors {
    ghost use Rattle.solve.specs.Factors.{Triangular, Factored, solved_by};

    // The factors of no matrix.
    pub fn none() -> Self
        ensures { (result.complete ≡ false) × ((m : ℕ) → OrderInRange m result.order) }
    {
        Factors {
            rows: [[0.0; SIZE]; SIZE],
            multipliers: [[0.0; SIZE]; SIZE],
            order: [0; SIZE],
            complete: false,
        }
    }

    // Every column in turn; false at the first that has no pivot.
    // Kept: an index. Column k is cleared over all rows, and what that leaves goes to place k of two arrays.
    fn triangular(&mut self, n: usize, scale: f64) -> bool
        requires { n ≤ SIZE }
        ensures { Triangular n scale self.old.rows result self.new × ((m : ℕ) → OrderInRange m self.old.order → OrderInRange m self.new.order) }
    {
        for k in 0..n {
            let Some(cleared) = column(&mut self.rows, n, scale, k) else {
                return false;
            };
            let Cleared { row, multipliers } = cleared;
            self.multipliers[k] = multipliers;
            self.order[k] = row;
        }
        true
    }

    // The elimination of the first n rows and columns, once for every right side.
    pub fn factor(&mut self, n: usize, matrix: Matrix)
        requires { n ≤ SIZE }
        ensures { Factored n matrix self.new × ((m : ℕ) → OrderInRange m self.old.order → OrderInRange m self.new.order) }
    {
        self.rows = matrix;
        let most = scale(&self.rows, n);
        self.complete = regular(most) && self.triangular(n, most);
    }

    // The solution of the system whose matrix was factored, with this right side. The order may hold anything: where one of its first n
    // places is no row of the 32, there is no solution.
    pub fn solve(&self, n: usize, right: Row) -> Option<Row>
        requires { n ≤ SIZE }
        ensures { result ≡ solved_by n self.now right }
    {
        if self.complete && !are_rows(&self.order[..n]) {
            return None;
        }
        self.solve_in_range(n, right)
    }

    // The same without a look at the order: the caller knows that it is in range where the elimination is complete.
    pub fn solve_in_range(&self, n: usize, right: Row) -> Option<Row>
        requires { (n ≤ SIZE) × (self.now.complete ≡ true → OrderInRange n self.now.order) }
        ensures { result ≡ solved_by n self.now right }
    {
        if !self.complete || !all_finite(&right[..n]) {
            return None;
        }
        let eliminated = forward(&self.multipliers, &self.order, right, n);
        let x = backward(&self.rows, eliminated, n);
        all_finite(&x[..n]).then_some(x)
    }
}

// The product of row i past its diagonal and x, from -0.0.
fn row_sum(matrix: &Matrix, x: &Row, n: usize, i: usize) -> f64
    requires { (i < n) × (n ≤ SIZE) }
    ensures { result ≡ sum_of (n - (i + 1)) (λ d. times (entry matrix.now i (i + 1 + d)) (word x.now (i + 1 + d))) }
{
    let row = &matrix[i][i + 1..n];
    let known = &x[i + 1..n];
    row.iter().zip(known).map(|(a, b)| a * b).sum()
}

// Place i of x, those after it being known.
fn back_row(matrix: &Matrix, right: &Row, x: &mut Row, n: usize, i: usize)
    requires { (i < n) × (n ≤ SIZE) }
    ensures { x.new ≡ back_row n (system matrix.now right.now) i x.old }
{
    let sum = row_sum(matrix, x, n, i);
    x[i] = (right[i] - sum) / matrix[i][i];
}

// The solution of a triangular system, from row n - 1 down.
// Kept: an index. The row, its right side and its place in x are all number i.
fn backward(matrix: &Matrix, right: Row, n: usize) -> Row
    requires { n ≤ SIZE }
    ensures { result ≡ backward_of n (system matrix.now right) }
{
    let mut x = [0.0; SIZE];
    for i in (0..n).rev() {
        back_row(matrix, &right, &mut x, n, i);
    }
    x
}

// Whether each is one of the 32.
fn are_rows(order: &[usize]) -> bool
    ensures { result ≡ list_all (λ p. ltb p SIZE) order.now }
{
    order.iter().all(|p| *p < SIZE)
}

// Whether all are finite.
fn all_finite(values: &[f64]) -> bool
    ensures { result ≡ list_all finite values.now }
{
    values.iter().all(|x| float::is_finite(*x))
}

// The places past k, each less its multiple of place k.
// Kept: an index. The proof lacks what a slice holds once `iter_mut().zip(..)` is given up, and with `enumerate` an index would stay.
#[tactic(auto, using(crate::proofs::Steps::loops), unfolding(crate::specs::Steps::cleared_to))]
fn clear(x: &mut Row, multipliers: &Row, n: usize, k: usize)
    requires { (k < n) × (n ≤ SIZE) }
    ensures { x.new ≡ cleared_to (n - (k + 1)) k multipliers.now x.old }
{
    let value = x[k];
    for i in k + 1..n {
        x[i] -= multipliers[i] * value;
    }
}

// The right side, taken through the steps of the elimination.
// Kept: an index. Step k is of place k, so `multipliers[..n].iter().zip(order).enumerate()` would only name the same three at greater length.
fn forward(multipliers: &Matrix, order: &[usize; SIZE], right: Row, n: usize) -> Row
    requires { (n ≤ SIZE) × OrderInRange n order.now }
    ensures { result ≡ forward_to n n multipliers.now order.now right }
{
    let mut x = right;
    for k in 0..n {
        x.swap(k, order[k]);
        clear(&mut x, &multipliers[k], n, k);
    }
    x
}

#[cfg(test)]
mod tests {
    use super::*;

    // Factored, and solved with a look at the order: the definition's solution.
    fn solved(n: usize, matrix: Matrix, right: Row) -> Option<Row>
        requires { n ≤ SIZE }
        ensures { result ≡ solve_of n matrix right }
    {
        let mut factors = Factors::none();
        factors.factor(n, matrix);
        factors.solve(n, right)
    }

    // 2x + y = 3 and x + 3y = 4, by x = y = 1.
    fn matrix() -> Matrix {
        let mut rows = [[0.0; SIZE]; SIZE];
        rows[0][0] = 2.0;
        rows[0][1] = 1.0;
        rows[1][0] = 1.0;
        rows[1][1] = 3.0;
        rows
    }

    fn right() -> Row {
        let mut right = [0.0; SIZE];
        right[0] = 3.0;
        right[1] = 4.0;
        right
    }

    #[test]
    fn solves_what_is_factored(rt: HostRuntime) {
        assert!(rt;
            Factors::none().solve(2, right()).is_none(),
            "no matrix is factored"
        );
        let x = solved(2, matrix(), right()).unwrap_or([0.0; SIZE]);
        assert_eq!(rt; x[0], 1.0);
        assert_eq!(rt; x[1], 1.0);
    }

    #[test]
    fn solves_by_no_row_that_is_not_there(rt: HostRuntime) {
        let mut factors = Factors::none();
        factors.factor(2, matrix());
        factors.order[1] = SIZE;
        assert!(rt; factors.solve(2, right()).is_none());
        let x = factors.solve(1, right()).unwrap_or([0.0; SIZE]);
        assert_eq!(rt; x[0], 1.5, "the first row alone");
    }
}
