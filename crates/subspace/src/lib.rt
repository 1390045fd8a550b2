// The minimum over the free coordinates of the Cauchy point, and the end that the direction leads to.
#![tactic(auto)]

ghost use Rattle.std.specs.Prelude.{◌≡◌, cond, ℕ, ◌+◌, ◌*◌, ◌≤◌, ◌<◌, length, Float};
ghost use Rattle.std.specs.Float.Ieee as Ieee;
ghost use Rattle.definition.specs.Number.{plus, times, zero64, neg_zero};
ghost use Rattle.definition.specs.Problem.{most_coordinates};
ghost use Rattle.definition.specs.Compact.{padded_rows};
ghost use Rattle.area.specs.Area.{view, upd, words_at, rowwise, first_pair, vector_target, vector_product_d, vector_product_z, vector_step, vector_g};
ghost use Rattle.compact.specs.State.{compact_of, column_slot, Sound, Laid, Assembled, Prepared};
ghost use Rattle.subspace.specs.State.{Ready, coordinate_of, free_of, shortened_of, shared_of, free_step_of, moved_of};
ghost use Rattle.subspace.specs.State.{columns_in, grid, row_each, each, CallableWithin, Computes, product_to, four_to, add_rows, Held, add_free};
ghost use Rattle.subspace.specs.State.{difference_array, direction_array, directed, Makes, Minimizes};
ghost use Rattle.subspace.specs.State.{any_free_at, free_sum_at, reduced_at, right_at, weights_at};
ghost use Rattle.subspace.specs.State.{residual_at, corrections_at, steps_at, share_at, moved_at, moved_by_share_at, free_minimum_at, minimum_at};

use arrayvec::ArrayVec;
use solve::{Matrix, Row, SIZE};

// A coordinate of the Cauchy point, and its bounds.
// Kept: apart from cauchy's Coordinate, of x, g and the bounds. One type of both would carry words that half of its methods never read.
#[derive(Clone, Copy)]
pub struct Coordinate {
    pub cauchy: f64,
    pub lower: f64,
    pub upper: f64,
}

// ---- one coordinate

impl Coordinate {
    // Whether it lies strictly between its bounds.
    fn is_free(self) -> bool
        ensures { result ≡ free_of self }
    {
        self.lower < self.cauchy && self.cauchy < self.upper
    }

    // How far it, which is free, lets the step go.
    fn shortened(self, step: f64, alpha: f64) -> f64
        ensures { result ≡ shortened_of self step alpha }
    {
        if 0.0 < step {
            return float::min(alpha, (self.upper - self.cauchy) / step);
        }
        if step < 0.0 {
            return float::min(alpha, (self.lower - self.cauchy) / step);
        }
        alpha
    }

    // What it leaves of alpha.
    fn share(self, step: f64, alpha: f64) -> f64
        ensures { result ≡ shared_of self step alpha }
    {
        if self.is_free() {
            return self.shortened(step, alpha);
        }
        alpha
    }

    // The step of it where it is free, and else 0.
    fn free_step(self, step: f64) -> f64
        ensures { result ≡ free_step_of self step }
    {
        if self.is_free() { step } else { 0.0 }
    }

    // Its word of the target.
    fn moved(self, step: f64, alpha: f64) -> f64
        ensures { result ≡ moved_of self step alpha }
    {
        if self.is_free() {
            return float::clamp(self.cauchy + alpha * step, self.lower, self.upper);
        }
        self.cauchy
    }
}

// Coordinate i.
fn coordinate_at(area: &[f64], n: usize, i: usize) -> Coordinate
    requires { (first_pair * n ≤ length area.now) × (i < n) }
    ensures { result ≡ coordinate_of (words_at area.now n i) }
{
    Coordinate {
        cauchy: area[area::CAUCHY * n + i],
        lower: area[area::LOWER * n + i],
        upper: area[area::UPPER * n + i],
    }
}

// Whether any coordinate is free.
fn any_free(area: &[f64], n: usize) -> bool
    requires { first_pair * n ≤ length area.now }
    ensures { result ≡ any_free_at n (view area.now n) }
{
    (0..n).any(|i| coordinate_at(area, n, i).is_free())
}

// The product of vectors `left` and `right` over the free coordinates, from the left and from -0.0.
fn free_sum(area: &[f64], n: usize, left: usize, right: usize) -> f64
    requires { (first_pair * n ≤ length area.now) × (left * n + n ≤ length area.now) × (right * n + n ≤ length area.now) }
    ensures { result ≡ free_sum_at n (view area.now n) left right }
{
    (0..n)
        .filter(|&i| coordinate_at(area, n, i).is_free())
        .map(|i| area[left * n + i] * area[right * n + i])
        .sum()
}

// ---- the residual B (cauchy - x) + g

// The product with the displacement, and the gradient.
fn add_gradient(area: &mut [f64], n: usize)
    requires { first_pair * n ≤ length area.old }
    ensures { view area.new n ≡ rowwise n vector_product_d (λ (i : ℕ) w. plus (w vector_product_z) (w vector_g)) (view area.old n) }
{
    area::set_each(
        area,
        n,
        area::PRODUCT_D,
        |area, i| area[area::PRODUCT_Z * n + i] + area[area::G * n + i],
    );
}

// The residual in its vector; false where there is no product with the displacement.
// Kept: a bool. An `Option` would hold the residual by value, and what reads it looks in the area.
fn residual(area: &mut [f64], model: &compact::Model) -> bool
    requires { let h = model.now.shape in Sound h (length area.old) × Prepared model.now (view area.old h.n) }
    ensures { let h = model.now.shape in
        let v = view area.old h.n in
        Makes vector_product_d (residual_at h model.now.theta v) v result (view area.new h.n) }
{
    let n = model.shape.n;
    area::difference(area, n, area::DISPLACEMENT, area::CAUCHY, area::X);
    if !compact::product(area, model, area::PRODUCT_Z, area::DISPLACEMENT) {
        return false;
    }
    add_gradient(area, n);
    true
}

// ---- the reduced system

// Each of the first size entries of the row, which is row i, becomes what `change` makes of its place and itself.
fn change_row<F: Fn(usize, usize, f64) -> f64>(row: &mut Row, size: usize, i: usize, change: &F)
    requires callable { CallableWithin (F.pre change.now) }
    requires room { (i < size) × (size ≤ SIZE) }
    ensures { (f : ℕ → ℕ → Float → Float) → Computes (F.post change.now) f → row.new ≡ row_each size (f i) row.old }
{
    for (j, sum) in row[0..size].iter_mut().enumerate() {
        *sum = change(i, j, *sum);
    }
}

// Each of the first size entries of the first size rows becomes what `change` makes of its place and itself.
fn change_each<F: Fn(usize, usize, f64) -> f64>(sums: &mut Matrix, size: usize, change: F)
    requires callable { CallableWithin (F.pre change) }
    requires room { size ≤ SIZE }
    ensures { (f : ℕ → ℕ → Float → Float) → Computes (F.post change) f → sums.new ≡ each size f sums.old }
{
    for (i, row) in sums[0..size].iter_mut().enumerate() {
        change_row(row, size, i, &change);
    }
}

// The sums where there is no term: -0.0 in the first size places of the first size rows.
fn empty_sums(size: usize) -> Matrix
    requires { size ≤ SIZE }
    ensures { result ≡ grid size (λ i j. neg_zero) }
{
    let mut sums = [[0.0; SIZE]; SIZE];
    change_each(&mut sums, size, |_, _, _| float::NEG_ZERO);
    sums
}

// The words of the columns at coordinate i.
fn gather(area: &[f64], shape: compact::Shape, i: usize) -> Row
    requires { Sound shape (length area.now) × (i < shape.n) }
    ensures { result ≡ columns_in shape (words_at area.now shape.n i) }
{
    let mut row = [0.0; SIZE];
    for (j, word) in row[0..2 * shape.pairs].iter_mut().enumerate() {
        *word = area::get(area, shape.n, compact::column_slot(shape, j), i);
    }
    row
}

// The sums, and the products of any two words of each of the four rows of the batch: a sum is loaded and stored once for the four.
fn add_fours(sums: &mut Matrix, size: usize, batch: &[Row])
    requires { (size ≤ SIZE) × (length batch.now ≡ 4) }
    ensures { sums.new ≡ each size (four_to batch.now) sums.old }
{
    change_each(sums, size, |i, j, sum| {
        sum + batch[0][i] * batch[0][j]
            + batch[1][i] * batch[1][j]
            + batch[2][i] * batch[2][j]
            + batch[3][i] * batch[3][j]
    });
}

// The sums, and the products of any two words of the row.
fn add_row(sums: &mut Matrix, size: usize, row: &Row)
    requires { size ≤ SIZE }
    ensures { sums.new ≡ each size (product_to row.now) sums.old }
{
    change_each(sums, size, |i, j, sum| sum + row[i] * row[j]);
}

// The sums, and the products of any two words of each row of the batch.
fn add_rest(sums: &mut Matrix, size: usize, batch: &[Row])
    requires { size ≤ SIZE }
    ensures { sums.new ≡ add_rows size batch.now sums.old }
{
    for row in batch {
        add_row(sums, size, row);
    }
}

// The columns at coordinate i join the batch where it is free, and a full batch is added to the sums.
fn add_coordinate(
    sums: &mut Matrix,
    batch: &mut ArrayVec<Row, 4>,
    area: &[f64],
    shape: compact::Shape,
    i: usize,
)
    requires { Sound shape (length area.now) × (i < shape.n) × Held (2 * shape.pairs) batch.old.items sums.old }
    ensures { Held (2 * shape.pairs) batch.new.items sums.new
        × (add_rows (2 * shape.pairs) batch.new.items sums.new
        ≡ add_free shape (words_at area.now shape.n i) (add_rows (2 * shape.pairs) batch.old.items sums.old)) }
{
    if !coordinate_at(area, shape.n, i).is_free() {
        return;
    }
    batch.push(gather(area, shape, i));
    if batch.is_full() {
        add_fours(sums, 2 * shape.pairs, batch.as_slice());
        batch.clear();
    }
}

// The products of any two columns over the free coordinates.
fn sums(area: &[f64], shape: compact::Shape) -> Matrix
    requires { Sound shape (length area.now) }
    ensures { let v = view area.now shape.n in
        result ≡ grid (2 * shape.pairs) (λ i j. free_sum_at shape.n v (column_slot shape i) (column_slot shape j)) }
{
    let size = 2 * shape.pairs;
    let mut sums = empty_sums(size);
    let mut batch = ArrayVec::new();
    for i in 0..shape.n {
        add_coordinate(&mut sums, &mut batch, area, shape, i);
    }
    add_rest(&mut sums, size, batch.as_slice());
    sums
}

// The reduced matrix, 2 rows and columns for each pair: the block, less the sums by theta.
fn reduced(area: &[f64], model: &compact::Model) -> Matrix
    requires { let h = model.now.shape in Sound h (length area.now) × Assembled model.now (view area.now h.n) }
    ensures { let h = model.now.shape in
        let v = view area.now h.n in
        result ≡ padded_rows (compact_of h model.now.theta v) (reduced_at h model.now.theta v) }
{
    let mut matrix = sums(area, model.shape);
    change_each(
        &mut matrix,
        2 * model.shape.pairs,
        |i, j, sum| model.block[i][j] - sum / model.theta,
    );
    matrix
}

// The columns' products with the residual over the free coordinates.
fn reduced_right(area: &[f64], model: &compact::Model) -> Row
    requires { let h = model.now.shape in Sound h (length area.now) × Laid h model.now.theta (view area.now h.n) }
    ensures { let h = model.now.shape in result ≡ right_at h model.now.theta (view area.now h.n) }
{
    let shape = model.shape;
    let mut right = [0.0; SIZE];
    for (i, product) in right[0..2 * shape.pairs].iter_mut().enumerate() {
        *product = free_sum(
            area,
            shape.n,
            compact::column_slot(shape, i),
            area::PRODUCT_D,
        );
    }
    right
}

// The weights of the columns that solve the reduced system, where there are any.
fn weights(area: &[f64], model: &compact::Model) -> Option<Row>
    requires { let h = model.now.shape in Sound h (length area.now) × Assembled model.now (view area.now h.n) }
    ensures { let h = model.now.shape in result ≡ weights_at h model.now.theta (view area.now h.n) }
{
    solve::solve(
        2 * model.shape.pairs,
        reduced(area, model),
        reduced_right(area, model),
    )
}

// ---- the step over the free coordinates

// The step becomes itself and vector `from` times the factor.
fn add_column(area: &mut [f64], n: usize, from: usize, factor: f64)
    requires { (first_pair * n ≤ length area.old) × (from * n + n ≤ length area.old) }
    ensures { view area.new n ≡ rowwise n vector_step (λ (i : ℕ) v. plus (v vector_step) (times (v from) factor)) (view area.old n) }
{
    area::set_each(
        area,
        n,
        area::STEP,
        |area, i| area[area::STEP * n + i] + area[from * n + i] * factor,
    );
}

// The step becomes what the columns with the weights add to the residual.
fn corrections(area: &mut [f64], model: &compact::Model, weights: Row)
    requires { let h = model.now.shape in Sound h (length area.old) × Laid h model.now.theta (view area.old h.n) }
    ensures { let h = model.now.shape in
        let v = view area.old h.n in
        view area.new h.n ≡ upd v vector_step (corrections_at h model.now.theta v weights) }
{
    let shape = model.shape;
    area::fill(area, shape.n, area::STEP, float::NEG_ZERO);
    for (column, &weight) in weights[0..2 * shape.pairs].iter().enumerate() {
        add_column(area, shape.n, compact::column_slot(shape, column), weight);
    }
}

// The steps, by the reduced system's weights where there are pairs.
// Kept: a bool. An `Option` would hold the steps by value, and what reads them looks in the area.
fn steps(area: &mut [f64], model: &compact::Model) -> bool
    requires { let h = model.now.shape in Sound h (length area.old) × Assembled model.now (view area.old h.n) }
    ensures { let h = model.now.shape in
        let v = view area.old h.n in
        Makes vector_step (steps_at h model.now.theta v) v result (view area.new h.n) }
{
    let n = model.shape.n;
    let theta = model.theta;
    if model.shape.pairs == 0 {
        area::set_each(
            area,
            n,
            area::STEP,
            |area, i| coordinate_at(area, n, i).free_step(-area[area::PRODUCT_D * n + i] / theta),
        );
        return true;
    }
    let Some(weights) = weights(area, model) else {
        return false;
    };
    corrections(area, model, weights);
    area::set_each(area, n, area::STEP, |area, i| {
        let residual = area[area::PRODUCT_D * n + i];
        let correction = area[area::STEP * n + i];
        coordinate_at(area, n, i).free_step(-(residual + correction / theta) / theta)
    });
    true
}

// ---- the target

// The share of the step that keeps every free coordinate within its bounds.
fn share(area: &[f64], n: usize) -> f64
    requires { first_pair * n ≤ length area.now }
    ensures { result ≡ share_at n (view area.now n) }
{
    (0..n).fold(
        1.0,
        |alpha, i| coordinate_at(area, n, i).share(area[area::STEP * n + i], alpha),
    )
}

// The target: the Cauchy point, its free coordinates moved by alpha times the step and brought into the box.
// Kept: a bool. An `Option` would hold the target by value, and what reads it looks in the area.
fn moved(area: &mut [f64], n: usize, alpha: f64) -> bool
    requires { first_pair * n ≤ length area.old }
    ensures { Makes vector_target (moved_at n (view area.old n) alpha) (view area.old n) result (view area.new n) }
{
    area::set_each(
        area,
        n,
        area::TARGET,
        |area, i| coordinate_at(area, n, i).moved(area[area::STEP * n + i], alpha),
    );
    area::all_finite(area, n, area::TARGET)
}

// The target by the share that the bounds leave, where the steps are finite.
// Kept: a bool. An `Option` would hold the target by value, and what reads it looks in the area.
fn move_by_share(area: &mut [f64], n: usize) -> bool
    requires { first_pair * n ≤ length area.old }
    ensures { Makes vector_target (moved_by_share_at n (view area.old n)) (view area.old n) result (view area.new n) }
{
    if !area::all_finite(area, n, area::STEP) {
        return false;
    }
    moved(area, n, share(area, n))
}

// The target where a coordinate is free.
// Kept: a bool. An `Option` would hold the target by value, and what reads it looks in the area.
fn minimize_free(area: &mut [f64], model: &compact::Model) -> bool
    requires { Ready model.now area.old }
    ensures { let h = model.now.shape in
        let v = view area.old h.n in
        Makes vector_target (free_minimum_at h model.now.theta v) v result (view area.new h.n) }
{
    if !residual(area, model) {
        return false;
    }
    if !steps(area, model) {
        return false;
    }
    move_by_share(area, model.shape.n)
}

// `primal_minimize`: the minimum over the free coordinates of the Cauchy point becomes the target; false where there is none.
// Kept: a bool. An `Option` would hold the target by value, and what reads it looks in the area.
pub fn primal_minimize(area: &mut [f64], model: &compact::Model) -> bool
    requires { Ready model.now area.old }
    ensures { let h = model.now.shape in
        let v = view area.old h.n in
        Minimizes (minimum_at h model.now.theta v) v result (view area.new h.n) }
{
    let n = model.shape.n;
    if any_free(area, n) {
        return minimize_free(area, model);
    }
    area::copy(area, n, area::TARGET, area::CAUCHY);
    true
}

// ---- the end of the direction

// The target, unless it lies uphill. A slope that is no number keeps the target.
// Kept: a rule of the project, that the direction's end is chosen by a function of two lent slices, which hands one on.
fn end<'a>(target: &'a [f64], cauchy: &'a [f64], slope: f64) -> &'a [f64]
    ensures { result.now ≡ cond (Ieee.le zero64 slope) cauchy.now target.now }
{
    if 0.0 <= slope { cauchy } else { target }
}

// The words of `left` less those of `right`, zeros behind them.
fn difference(left: &[f64], right: &[f64]) -> [f64; problem::MOST_COORDINATES]
    requires { (length left.now ≤ most_coordinates) × (length right.now ≡ length left.now) }
    ensures { result ≡ difference_array (length left.now) left.now right.now }
{
    let mut result = [0.0; problem::MOST_COORDINATES];
    for (i, word) in result[0..left.len()].iter_mut().enumerate() {
        *word = left[i] - right[i];
    }
    result
}

// The direction from x to the end that the slope towards the target chooses, handed on as that slice.
// Kept: fixed memory, a word for each coordinate that there may be.
fn direction(area: &[f64], n: usize, slope: f64) -> [f64; problem::MOST_COORDINATES]
    requires { (first_pair * n ≤ length area.now) × (n ≤ most_coordinates) }
    ensures { result ≡ direction_array n slope (view area.now n) }
{
    let target_start = area::TARGET * n;
    let cauchy_start = area::CAUCHY * n;
    let x_start = area::X * n;
    let target = &area[target_start..target_start + n];
    let cauchy = &area[cauchy_start..cauchy_start + n];
    let point = &area[x_start..x_start + n];
    difference(end(target, cauchy, slope), point)
}

// The direction leads from x to the target, or to the Cauchy point where the target lies uphill.
pub fn set_direction(area: &mut [f64], n: usize)
    requires { (first_pair * n ≤ length area.old) × (n ≤ most_coordinates) }
    ensures { (f : Float) → view area.new n ≡ directed n f (view area.old n) }
{
    area::difference(area, n, area::DIRECTION, area::TARGET, area::X);
    let slope = area::dot(area, n, area::G, area::DIRECTION);
    let direction = direction(area, n, slope);
    area::store(area, n, area::DIRECTION, &direction[0..n]);
}
