// `Compact`: the correction pairs as a ring in the area, `update`, the block of the middle matrix, and products with B.
#![tactic(auto)]

ghost use Rattle.std.specs.Prelude.{◌≡◌, ◌&&◌, ℕ, ◌+◌, ◌*◌, ◌≤◌, ◌<◌, length};
ghost use Rattle.definition.specs.Number.{over, times, minus, zero64};
ghost use Rattle.definition.specs.Vector.{tab, dot as dot_of};
ghost use Rattle.definition.specs.Problem.{most_pairs};
ghost use Rattle.definition.specs.Compact.{curved as curved_of, usable as usable_of, pair_of, column_word, diagonal_entry, lower_entry, block_entry};
ghost use Rattle.definition.specs.Compact.{wrap, padded, block as block_of, right_side, weights as weights_of};
ghost use Rattle.area.specs.Area.{view, upd, rowwise, first_pair};
ghost use Rattle.solve.specs.Steps.{OrderInRange};
ghost use Rattle.compact.specs.State.{pair_slot, column_slot, Sound, Slot, pairs_of, compact_of, pushed_shape, accepted_of, Pushed};
ghost use Rattle.compact.specs.State.{block_to, Laid, PairsKept, Prepared, Built, Multiplied, less_to};

use solve::{Factors, Matrix, Row, SIZE};

// What the places of the pairs rest on: n coordinates, m places, how many are used, and which is the oldest.
#[derive(Clone, Copy)]
pub struct Shape {
    pub n: usize,
    pub m: usize,
    pub pairs: usize,
    pub oldest: usize,
}

// The pairs and theta after an update.
#[derive(Clone, Copy)]
pub struct Updated {
    pub shape: Shape,
    pub theta: f64,
}

// The place i of a ring of m, where i is below 2 m.
fn wrapped(m: usize, i: usize) -> usize
    ensures { result ≡ wrap m i }
{
    if i < m { i } else { i - m }
}

// The vector of a place counted from the oldest's: a pair's s, and its y in the next vector.
fn place_slot(shape: Shape, place: usize) -> usize
    requires { (shape.oldest < shape.m) × (place ≤ shape.m) × (shape.m ≤ most_pairs) }
    ensures { result ≡ pair_slot shape place }
{
    area::FIRST_PAIR + 2 * wrapped(shape.m, shape.oldest + place)
}

// The vector of a column of W, behind the pairs.
pub fn column_slot(shape: Shape, column: usize) -> usize
    requires { (shape.m ≤ most_pairs) × (column < 2 * shape.m) }
    ensures { result ≡ column_slot shape column }
{
    area::FIRST_PAIR + 2 * shape.m + column
}

// Where a pair stands: its s, and its y in the next vector.
pub fn pair_slot(shape: Shape, pair: usize) -> usize
    requires { (pair < shape.pairs) × (shape.pairs ≤ shape.m) × (shape.oldest < shape.m) × (shape.m ≤ most_pairs) }
    ensures { Slot shape pair result }
{
    place_slot(shape, pair)
}

// ---- update

// Whether a pair's curvature is enough, its two products being finite.
#[tactic(auto, using(float::proofs::Constants::epsilon_is))]
fn curved(sy: f64, yy: f64) -> bool
    ensures { result ≡ curved_of sy yy }
{
    float::is_finite(sy) && float::is_finite(yy) && float::EPSILON * yy < sy
}

// Whether a theta is finite and positive.
#[tactic(auto, using(float::proofs::Constants::zero_is))]
fn usable(theta: f64) -> bool
    ensures { result ≡ usable_of theta }
{
    float::is_finite(theta) && 0.0 < theta
}

// The new pair's theta, where the pair is acceptable.
fn accepted(sy: f64, yy: f64) -> Option<f64>
    ensures { result ≡ accepted_of sy yy }
{
    if !curved(sy, yy) {
        return None;
    }
    let theta = yy / sy;
    usable(theta).then_some(theta)
}

// One pair more, or without the oldest where there are m.
fn pushed(shape: Shape) -> Shape
    requires { (shape.pairs ≤ shape.m) × (shape.oldest < shape.m) × (shape.m ≤ most_pairs) }
    ensures { result ≡ pushed_shape shape }
{
    if shape.pairs < shape.m {
        return Shape {
            pairs: shape.pairs + 1,
            ..shape
        };
    }
    Shape {
        oldest: wrapped(shape.m, shape.oldest + 1),
        ..shape
    }
}

// The pair of the two scratch vectors becomes the newest.
fn push(area: &mut [f64], shape: Shape) -> Shape
    requires { Sound shape (length area.old) }
    ensures { Pushed shape (view area.old shape.n) result (view area.new shape.n) }
{
    let slot = place_slot(shape, shape.pairs);
    area::copy(area, shape.n, slot, area::VELOCITY);
    area::copy(area, shape.n, slot + 1, area::DISPLACEMENT);
    pushed(shape)
}

// `update` with the s and y of the two scratch vectors: the old pairs and theta stay unless the new pair is accepted.
// Kept: shape and theta apart, as a fit has them: a struct of both would be made and taken apart at each of its three uses.
pub fn update(area: &mut [f64], shape: Shape, theta: f64) -> Updated
    requires { Sound shape (length area.old) }
    ensures { Rattle.compact.specs.State.Updated shape theta (view area.old shape.n) result.shape result.theta
        (view area.new shape.n) }
{
    let sy = area::dot(area, shape.n, area::VELOCITY, area::DISPLACEMENT);
    let yy = area::dot(area, shape.n, area::DISPLACEMENT, area::DISPLACEMENT);
    let Some(new_theta) = accepted(sy, yy) else {
        return Updated { shape, theta };
    };
    Updated {
        shape: push(area, shape),
        theta: new_theta,
    }
}

// ---- the model

// Vector `to` becomes the factor times vector `from`.
fn scale(area: &mut [f64], n: usize, to: usize, from: usize, factor: f64)
    requires { (to * n + n ≤ length area.old) × (from * n + n ≤ length area.old) }
    ensures { view area.new n ≡ rowwise n to (λ (i : ℕ) v. times factor (v from)) (view area.old n) }
{
    let start = from * n;
    area::set_each(area, n, to, |area, i| factor * area[start + i]);
}

// What products with B and the subspace step rest on: the pairs, the block of the middle matrix, and its factors. The columns stand in the area.
#[derive(Drop)]
pub struct Model {
    pub shape: Shape,
    pub theta: f64,
    pub block: Matrix,
    pub factors: Factors,
}

impl Model {
    // A model that is not built.
    pub fn new(shape: Shape, theta: f64) -> Self
        ensures { (result.shape ≡ shape) × (result.theta ≡ theta) × ((m : ℕ) → OrderInRange m result.factors.order) }
    {
        let factors = Factors::none();
        Model {
            shape,
            theta,
            block: [[0.0; SIZE]; SIZE],
            factors,
        }
    }

    // The s of pair i times the y of pair j.
    fn s_dot_y(&self, area: &[f64], i: usize, j: usize) -> f64
        requires { let h = self.now.shape in Sound h (length area.now) × (i < h.pairs) × (j < h.pairs) }
        ensures { let h = self.now.shape in let v = view area.now h.n in
            result ≡ dot_of h.n (pair_of (pairs_of h v) i).s (pair_of (pairs_of h v) j).y }
    {
        let left = pair_slot(self.shape, i);
        let right = pair_slot(self.shape, j);
        area::dot(area, self.shape.n, left, right + 1)
    }

    // An entry of -D: -s·y of a pair on the diagonal, and 0 elsewhere.
    #[tactic(auto, using(float::proofs::Constants::zero_is), unfolding(definition::specs::Compact::diagonal_entry))]
    fn diagonal(&self, area: &[f64], i: usize, j: usize) -> f64
        requires { let h = self.now.shape in Sound h (length area.now) × (i < h.pairs) × (j < h.pairs) }
        ensures { let h = self.now.shape in result ≡ diagonal_entry h.n (pairs_of h (view area.now h.n)) i j }
    {
        if i == j {
            -self.s_dot_y(area, i, j)
        } else {
            0.0
        }
    }

    // An entry of L: s of pair i times y of pair j below the diagonal, and 0 elsewhere.
    #[tactic(auto, using(float::proofs::Constants::zero_is), unfolding(definition::specs::Compact::lower_entry))]
    fn lower(&self, area: &[f64], i: usize, j: usize) -> f64
        requires { let h = self.now.shape in Sound h (length area.now) × (i < h.pairs) × (j < h.pairs) }
        ensures { let h = self.now.shape in result ≡ lower_entry h.n (pairs_of h (view area.now h.n)) i j }
    {
        if j < i { self.s_dot_y(area, i, j) } else { 0.0 }
    }

    // Entry i, j of the block [-D, L'; L, theta S'S], by the row's half and the column's. The block is symmetric: below the diagonal
    // the entry is taken from the rows above, which stand in the block.
    fn block_entry(&self, area: &[f64], i: usize, j: usize) -> f64
        requires { let h = self.now.shape in Sound h (length area.now) × (i < 2 * h.pairs) × (j < 2 * h.pairs)
            × (self.now.block ≡ block_to h self.now.theta (view area.now h.n) i) }
        ensures { let h = self.now.shape in result ≡ block_entry h.n (compact_of h self.now.theta (view area.now h.n)) i j }
    {
        if j < i {
            return self.block[j][i];
        }
        let pairs = self.shape.pairs;
        if pairs <= i {
            let left = pair_slot(self.shape, i - pairs);
            let right = pair_slot(self.shape, j - pairs);
            return self.theta * area::dot(area, self.shape.n, left, right);
        }
        if j < pairs {
            return self.diagonal(area, i, j);
        }
        self.lower(area, j - pairs, i)
    }

    // Row i of the block, in an array of 32; the rows above stand in the block.
    fn block_row(&self, area: &[f64], i: usize) -> Row
        requires { let h = self.now.shape in Sound h (length area.now) × (i < 2 * h.pairs)
            × (self.now.block ≡ block_to h self.now.theta (view area.now h.n) i) }
        ensures { let h = self.now.shape in
            result ≡ padded zero64 (2 * h.pairs) (block_entry h.n (compact_of h self.now.theta (view area.now h.n)) i) }
    {
        let mut row = [0.0; SIZE];
        for (j, place) in row[..2 * self.shape.pairs].iter_mut().enumerate() {
            *place = self.block_entry(area, i, j);
        }
        row
    }

    // The block, row by row.
    // Kept: an index. A row is made from the rows above it, which stand in the array that it goes to.
    fn build_block(&mut self, area: &[f64])
        requires { Sound self.old.shape (length area.now) }
        ensures { let h = self.old.shape in (self.new.shape ≡ h) × (self.new.theta ≡ self.old.theta)
            × (self.new.block ≡ block_of h.n (compact_of h self.old.theta (view area.now h.n))) × (self.new.factors ≡ self.old.factors) }
    {
        self.block = [[0.0; SIZE]; SIZE];
        for i in 0..2 * self.shape.pairs {
            let row = self.block_row(area, i);
            self.block[i] = row;
        }
    }

    // A column of W = [Y, theta S]: the y of a pair, or theta times its s.
    fn lay_column(&self, area: &mut [f64], column: usize)
        requires { let h = self.now.shape in Sound h (length area.old) × (column < 2 * h.pairs) }
        ensures { let h = self.now.shape in let v = view area.old h.n in
            view area.new h.n ≡ upd v (column_slot h column) (tab h.n (column_word (compact_of h self.now.theta v) column)) }
    {
        let shape = self.shape;
        let to = column_slot(shape, column);
        if column < shape.pairs {
            let slot = pair_slot(shape, column);
            area::copy(area, shape.n, to, slot + 1);
        } else {
            let slot = pair_slot(shape, column - shape.pairs);
            scale(area, shape.n, to, slot, self.theta);
        }
    }

    // Every column, each in its own vector past the pairs; the vectors below stay.
    fn lay_columns(&self, area: &mut [f64])
        requires { Sound self.now.shape (length area.old) }
        ensures { let h = self.now.shape in Laid h self.now.theta (view area.new h.n)
            × PairsKept h (view area.old h.n) (view area.new h.n) }
    {
        for column in 0..2 * self.shape.pairs {
            self.lay_column(area, column);
        }
    }

    // The model of the pairs: the columns are laid out, and the block is built and factored.
    // Kept: in place. A model by value, with an Option of its factors, took 5.7 microseconds where this one takes 2.5 (3 coordinates, 5 pairs).
    pub fn build(&mut self, area: &mut [f64])
        requires { Sound self.old.shape (length area.old) }
        ensures { Built self.old.shape self.old.theta area.old self.new area.new
            × ((m : ℕ) → OrderInRange m self.old.factors.order → OrderInRange m self.new.factors.order) }
    {
        self.lay_columns(area);
        self.build_block(area);
        self.factors.factor(2 * self.shape.pairs, self.block);
    }
}

// ---- products with B

// The columns' products with the vector.
fn right_side(area: &[f64], model: &Model, vector: usize) -> Row
    requires { let h = model.now.shape in Sound h (length area.now) × Laid h model.now.theta (view area.now h.n) × (vector < first_pair) }
    ensures { let h = model.now.shape in let v = view area.now h.n in result ≡ right_side h.n (compact_of h model.now.theta v) (v vector) }
{
    let shape = model.shape;
    let mut right = [0.0; SIZE];
    for (column, place) in right[..2 * shape.pairs].iter_mut().enumerate() {
        *place = area::dot(area, shape.n, column_slot(shape, column), vector);
    }
    right
}

// The weights of the columns in the product with the vector, where there are any.
fn weights(area: &[f64], model: &Model, vector: usize) -> Option<Row>
    requires { Sound model.now.shape (length area.now) × Prepared model.now (view area.now model.now.shape.n) × (vector < first_pair) }
    ensures { let h = model.now.shape in let v = view area.now h.n in result ≡ weights_of h.n (compact_of h model.now.theta v) (v vector) }
{
    if model.shape.pairs == 0 {
        return Some([0.0; SIZE]);
    }
    let right = right_side(area, model, vector);
    model.factors.solve_in_range(2 * model.shape.pairs, right)
}

// Vector `to` becomes itself less the factor times vector `from`.
fn less(area: &mut [f64], n: usize, to: usize, from: usize, factor: f64)
    requires { (to * n + n ≤ length area.old) × (from * n + n ≤ length area.old) }
    ensures { view area.new n ≡ rowwise n to (λ (i : ℕ) v. minus (v to) (times factor (v from))) (view area.old n) }
{
    let to_start = to * n;
    let from_start = from * n;
    area::set_each(
        area,
        n,
        to,
        |area, i| area[to_start + i] - factor * area[from_start + i],
    );
}

// Vector `to` becomes theta times vector `from`, less each column with its weight.
fn less_columns(area: &mut [f64], model: &Model, weights: Row, to: usize, from: usize)
    requires { Sound model.now.shape (length area.old) × Laid model.now.shape model.now.theta (view area.old model.now.shape.n)
        × (to < first_pair) × (from < first_pair) }
    ensures { let h = model.now.shape in let v = view area.old h.n in
        view area.new h.n ≡ upd v to (tab h.n (less_to (compact_of h model.now.theta v) weights (v from) (2 * h.pairs))) }
{
    let shape = model.shape;
    scale(area, shape.n, to, from, model.theta);
    for (column, &weight) in weights[..2 * shape.pairs].iter().enumerate() {
        less(area, shape.n, to, column_slot(shape, column), weight);
    }
}

// `times`: vector `to` becomes B times vector `from`; false, and `to` is scratch, where there is no such product.
// Kept: a bool. An `Option` would hold the product by value, and what reads it looks in the area.
pub fn product(area: &mut [f64], model: &Model, to: usize, from: usize) -> bool
    requires { Sound model.now.shape (length area.old) × Prepared model.now (view area.old model.now.shape.n)
        × (to < first_pair) × (from < first_pair) }
    ensures { let h = model.now.shape in
        Multiplied h model.now.theta to from (view area.old h.n) result (view area.new h.n) }
{
    let Some(weights) = weights(area, model, from) else {
        return false;
    };
    less_columns(area, model, weights, to, from);
    area::all_finite(area, model.shape.n, to)
}

#[cfg(test)]
mod tests {
    use super::*;

    // Reading at a row of the order is proved by what `Model::new` and `Model::build` say of it.
    #[test]
    fn exchanges_rows_that_are_there(rt: HostRuntime) {
        let mut area = [1.0; 64];
        let shape = Shape {
            n: 1,
            m: 1,
            pairs: 1,
            oldest: 0,
        };
        let rows = [true; SIZE];
        let mut model = Model::new(shape, 1.0);
        assert!(rt; rows[model.factors.order[SIZE - 1]]);
        model.build(&mut area);
        let order = model.factors.order;
        assert!(rt; rows[order[SIZE - 1]]);
    }
}
