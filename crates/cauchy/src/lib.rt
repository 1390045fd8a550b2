// `generalized_cauchy`: break times, the projected path, and the Cauchy point on it.
#![tactic(auto)]

ghost use Rattle.std.specs.Prelude.{◌≡◌, ◌-◌, ◌*◌, ◌≤◌, ◌<◌, ◌&&◌, not, cond, length, get_or};
ghost use Rattle.std.specs.List.{suffix_len};
ghost use Rattle.std.specs.Float.Ieee as Ieee;
ghost use Rattle.std.specs.Float.Ieee.Scale.{finite};
ghost use Rattle.definition.specs.Number.{plus, total_le, clamp, zero64};
ghost use Rattle.definition.specs.Vector.{dot as dot_of};
ghost use Rattle.definition.specs.Problem.{most_coordinates};
ghost use Rattle.definition.specs.Geometry.{no_break, stopped, stop_all, passed, stood_at, generalized_cauchy};
ghost use Rattle.definition.specs.Geometry.{along as along_of, by_slope, still as still_of, segment as segment_of};
ghost use Rattle.area.specs.Area.{view, words_at, bounds_of, rowwise, first_pair, vector_x, vector_g, vector_velocity, vector_product_z, vector_cauchy};
ghost use Rattle.compact.specs.State.{Sound, Prepared, compact_of};
ghost use Rattle.cauchy.specs.State.{no_break_time, sift, break_list, Listed, Ordered, Inserted, Kept, Found};
ghost use Rattle.cauchy.specs.State.{coordinate_of, moves_up_of, moves_down_of, velocity_of, break_time_of, velocity_in, point_in, path_of};
ghost use Rattle.cauchy.specs.State.{travelled_of, Travels, Begins, Points, PathPoint, Segments};

use std::ops::ControlFlow;

// When a coordinate meets its bound.
#[derive(Clone, Copy, Default, Drop)]
pub struct BreakTime {
    pub time: f64,
    pub coordinate: usize,
}

// The finite break times, in order, in the first `count` places.
// Kept: an array with its count. ArrayVec has no Copy, which the public type has had.
#[derive(Clone, Copy, Drop)]
pub struct Breaks {
    pub list: [BreakTime; problem::MOST_COORDINATES],
    pub count: usize,
}

// How far the path is gone: the breaks of all coordinates, the time of the last that is passed, and how many are passed.
#[derive(Clone, Copy)]
pub struct Path<'a> {
    pub breaks: &'a Breaks,
    pub previous: f64,
    pub event: usize,
}

// What a coordinate's part of the path follows from.
#[derive(Clone, Copy)]
pub struct Coordinate {
    pub x: f64,
    pub g: f64,
    pub lower: f64,
    pub upper: f64,
}

// ---- one coordinate

impl Coordinate {
    // Whether it moves up, towards an upper bound that it is below.
    fn moves_up(self) -> bool
        ensures { result ≡ moves_up_of self }
    {
        0.0 < -self.g && self.x < self.upper
    }

    // Whether it moves down, towards a lower bound that it is above.
    fn moves_down(self) -> bool
        ensures { result ≡ moves_down_of self }
    {
        -self.g < 0.0 && self.lower < self.x
    }

    // The path's direction.
    fn velocity(self) -> f64
        ensures { result ≡ velocity_of self }
    {
        if self.moves_up() || self.moves_down() {
            return -self.g;
        }
        0.0
    }

    // When it meets its bound: infinity where it does not move.
    fn break_time(self) -> f64
        ensures { result ≡ break_time_of self }
    {
        if self.moves_up() {
            return (self.upper - self.x) / -self.g;
        }
        if self.moves_down() {
            return (self.lower - self.x) / -self.g;
        }
        float::infinity()
    }
}

// Coordinate i of the point held.
fn coordinate_at(area: &[f64], n: usize, i: usize) -> Coordinate
    requires { (first_pair * n ≤ length area.now) × (i < n) }
    ensures { result ≡ coordinate_of (words_at area.now n i) }
{
    Coordinate {
        x: area[area::X * n + i],
        g: area[area::G * n + i],
        lower: area[area::LOWER * n + i],
        upper: area[area::UPPER * n + i],
    }
}

// The bound that a coordinate moves to.
fn bound_met(velocity: f64, lower: f64, upper: f64) -> f64
    ensures { result ≡ cond (Ieee.lt zero64 velocity) upper lower }
{
    if 0.0 < velocity { upper } else { lower }
}

// The point at a coordinate: a bound that was met stands exactly.
fn point(bound: f64, x: f64, lower: f64, upper: f64) -> f64
    ensures { result ≡ stood_at bound (clamp x lower upper) }
{
    if !float::is_nan(bound) {
        return bound;
    }
    float::clamp(x, lower, upper)
}

// ---- break times

// Whether the other break stands before the entry, or level with it.
fn not_later(other: BreakTime, entry: BreakTime) -> bool
    ensures { result ≡ total_le other.time entry.time }
{
    float::total_le(other.time, entry.time)
}

// How many breaks at the list's end are later than the entry.
fn later(list: &[BreakTime], entry: BreakTime) -> usize
    ensures { result ≡ suffix_len (λ other. not (total_le other.time entry.time)) list.now }
{
    list.iter()
        .rev()
        .take_while(|other| !not_later(**other, entry))
        .count()
}

// A stable insertion in a lent list: the first `count` breaks are in order, and the entry goes behind those that are not later.
// Kept: a rule of the project, that the break times are a lent slice with one thin insertion.
fn insert_in(list: &mut [BreakTime], count: usize, entry: BreakTime)
    requires { count < length list.old }
    ensures { list.new ≡ sift count list.old entry }
{
    let place = count - later(&list[..count], entry);
    list.copy_within(place..count, place + 1);
    list[place] = entry;
}

// The break of a number from a lent list.
// Kept: a rule of the project, that a break of the lent slice is read by a thin function.
fn break_at(list: &[BreakTime], i: usize) -> BreakTime
    requires { i < length list.now }
    ensures { result ≡ get_or list.now i no_break_time }
{
    list[i]
}

impl Breaks {
    // A place for each coordinate that there may be, of which none is used.
    fn new() -> Breaks
        ensures { (length result.list ≡ most_coordinates) × (result.count ≡ 0) }
    {
        Breaks {
            list: [BreakTime::default(); problem::MOST_COORDINATES],
            count: 0,
        }
    }

    // One break more, in its place.
    fn insert(&mut self, entry: BreakTime)
        requires { Ordered self.old }
        ensures { Inserted self.old entry self.new }
    {
        insert_in(&mut self.list, self.count, entry);
        self.count += 1;
    }

    // A break time is kept where it is finite.
    fn keep(&mut self, time: f64, coordinate: usize)
        requires { Ordered self.old }
        ensures { Kept self.old time coordinate self.new }
    {
        if float::is_finite(time) {
            self.insert(BreakTime { time, coordinate });
        }
    }
}

// The finite break times of all coordinates.
fn find_breaks(area: &[f64], n: usize) -> Breaks
    requires { (first_pair * n ≤ length area.now) × (n ≤ most_coordinates) }
    ensures { Found n (view area.now n) result }
{
    let mut breaks = Breaks::new();
    for i in 0..n {
        breaks.keep(coordinate_at(area, n, i).break_time(), i);
    }
    breaks
}

// ---- the path

// The direction of every coordinate, in its vector.
fn set_velocity(area: &mut [f64], n: usize)
    requires { first_pair * n ≤ length area.old }
    ensures { view area.new n ≡ rowwise n vector_velocity (λ i w. velocity_in w) (view area.old n) }
{
    area::set_each(
        area,
        n,
        area::VELOCITY,
        |area, i| coordinate_at(area, n, i).velocity(),
    );
}

// The displacement after that much time more.
fn travel(area: &mut [f64], n: usize, time: f64)
    requires { first_pair * n ≤ length area.old }
    ensures { view area.new n ≡ travelled_of n time (view area.old n) }
{
    area::set_each(
        area,
        n,
        area::DISPLACEMENT,
        |area, i| area[area::DISPLACEMENT * n + i] + time * area[area::VELOCITY * n + i],
    );
}

// The point of every coordinate.
fn put_point(area: &mut [f64], n: usize)
    requires { first_pair * n ≤ length area.old }
    ensures { view area.new n ≡ rowwise n vector_cauchy (λ i w. point_in w) (view area.old n) }
{
    area::set_each(area, n, area::CAUCHY, |area, i| {
        point(
            area[area::ACTIVE * n + i],
            area[area::X * n + i] + area[area::DISPLACEMENT * n + i],
            area[area::LOWER * n + i],
            area[area::UPPER * n + i],
        )
    });
}

// `point_on_path`, if it is finite.
// Kept: a bool. An `Option` would hold the point by value, and what reads it looks in the area.
fn point_on_path(area: &mut [f64], n: usize) -> bool
    requires { first_pair * n ≤ length area.old }
    ensures { PathPoint n (view area.old n) result (view area.new n) }
{
    put_point(area, n);
    area::all_finite(area, n, area::CAUCHY)
}

// ---- segments

// Whether no coordinate moves.
fn still(area: &[f64], n: usize) -> bool
    requires { first_pair * n ≤ length area.now }
    ensures { result ≡ still_of n (view area.now n vector_velocity) }
{
    let start = area::VELOCITY * n;
    area[start..start + n].iter().all(|x| *x == 0.0)
}

// Whether slope and curvature are finite, and the curvature lies above zero.
fn is_usable(slope: f64, curvature: f64) -> bool
    ensures { result ≡ (finite slope && finite curvature && Ieee.lt zero64 curvature) }
{
    float::is_finite(slope) && float::is_finite(curvature) && 0.0 < curvature
}

// The slope along the path, with B z in its vector.
fn slope(area: &[f64], n: usize) -> f64
    requires { first_pair * n ≤ length area.now }
    ensures { let v = view area.now n in result ≡ plus (dot_of n (v vector_g) (v vector_velocity)) (dot_of n (v vector_product_z) (v vector_velocity)) }
{
    let first = area::dot(area, n, area::G, area::VELOCITY);
    let second = area::dot(area, n, area::PRODUCT_Z, area::VELOCITY);
    first + second
}

// ---- along the path

impl<'a> Path<'a> {
    // The path before its first segment.
    // Kept: the bounds met stand in a vector of the lent area, and a NaN, which no accepted bound is, says that none is met.
    fn begin(breaks: &'a Breaks, area: &mut [f64], n: usize) -> Path<'a>
        requires { first_pair * n ≤ length area.old }
        ensures { Begins n breaks.now (view area.old n) result (view area.new n) }
    {
        set_velocity(area, n);
        area::fill(area, n, area::DISPLACEMENT, 0.0);
        area::fill(area, n, area::ACTIVE, f64::NAN);
        Path {
            breaks,
            previous: 0.0,
            event: 0,
        }
    }

    // Coordinate i stops at its bound.
    fn stop(self, area: &mut [f64], n: usize, i: usize) -> Path<'a>
        requires { (first_pair * n ≤ length area.old) × (i < n) × (self.event < most_coordinates) }
        ensures { let v = view area.old n in Travels (stopped (bounds_of v) (v vector_x) i) self.entry v result (view area.new n) }
    {
        let bound = bound_met(
            area[area::VELOCITY * n + i],
            area[area::LOWER * n + i],
            area[area::UPPER * n + i],
        );
        let x = area[area::X * n + i];
        area::put(area, n, area::VELOCITY, i, 0.0);
        area::put(area, n, area::DISPLACEMENT, i, bound - x);
        area::put(area, n, area::ACTIVE, i, bound);
        Path {
            event: self.event + 1,
            ..self
        }
    }

    // The time of the next break: infinity past the last.
    fn next_time(self) -> f64
        requires { let b = self.breaks.now in (length b.list ≡ most_coordinates) × (b.count ≤ most_coordinates) }
        ensures { result ≡ (get_or (break_list self.entry.breaks.now) self.entry.event no_break).time }
    {
        if self.event < self.breaks.count {
            return break_at(&self.breaks.list, self.event).time;
        }
        float::infinity()
    }

    // Every break at the time stops its coordinate.
    fn stop_all(self, area: &mut [f64], n: usize, time: f64) -> Path<'a>
        requires { (first_pair * n ≤ length area.old) × Listed n self.breaks.now }
        ensures { let v = view area.old n in let b = self.entry.breaks.now in
            Travels (stop_all (b.count - self.entry.event) (bounds_of v) (v vector_x) (break_list b) time) self.entry v result
            (view area.new n) }
    {
        let list = &self.breaks.list[..self.breaks.count];
        let mut reached = self;
        for entry in list.iter().skip(self.event) {
            if entry.time != time {
                return reached;
            }
            reached = reached.stop(area, n, entry.coordinate);
        }
        reached
    }

    // Past the segment that ends at the time.
    fn pass(self, area: &mut [f64], n: usize, time: f64) -> Path<'a>
        requires { (first_pair * n ≤ length area.old) × Listed n self.breaks.now }
        ensures { let v = view area.old n in let b = self.entry.breaks.now in
            Travels (passed n (bounds_of v) (v vector_x) (break_list b) time) self.entry v result (view area.new n) }
    {
        travel(area, n, time - self.previous);
        let reached = self.stop_all(area, n, time);
        Path {
            previous: time,
            ..reached
        }
    }

    // With a slope below zero and a curvature above: a minimum inside the segment, or on to its end.
    fn along(self, area: &mut [f64], n: usize, minimizer: f64) -> ControlFlow<bool, Path<'a>>
        requires { (first_pair * n ≤ length area.old) × Listed n self.breaks.now }
        ensures { let v = view area.old n in let b = self.entry.breaks.now in
            let next = (get_or (break_list b) self.entry.event no_break).time in
            Segments (along_of n (bounds_of v) (v vector_x) (break_list b) (path_of self.entry v) next minimizer) b v result
            (view area.new n) }
    {
        let next = self.next_time();
        if !float::is_finite(minimizer) {
            return ControlFlow::Break(false);
        }
        if minimizer < next - self.previous {
            travel(area, n, minimizer);
            return ControlFlow::Break(point_on_path(area, n));
        }
        ControlFlow::Continue(self.pass(area, n, next))
    }

    // The curvature must lie above zero; a slope that does not fall ends the path.
    fn by_slope(
        self,
        area: &mut [f64],
        n: usize,
        slope: f64,
        curvature: f64,
    ) -> ControlFlow<bool, Path<'a>>
        requires { (first_pair * n ≤ length area.old) × Listed n self.breaks.now }
        ensures { let v = view area.old n in let b = self.entry.breaks.now in
            Segments (by_slope n (bounds_of v) (v vector_x) (break_list b) (path_of self.entry v) slope curvature) b v result
            (view area.new n) }
    {
        if !is_usable(slope, curvature) {
            return ControlFlow::Break(false);
        }
        if 0.0 <= slope {
            return ControlFlow::Break(point_on_path(area, n));
        }
        self.along(area, n, -slope / curvature)
    }

    // One segment of the path: it ends the path, with the Cauchy point in its vector or without, or leads on.
    fn segment(self, area: &mut [f64], model: &compact::Model) -> ControlFlow<bool, Path<'a>>
        requires { let h = model.now.shape in
            Sound h (length area.old) × Prepared model.now (view area.old h.n) × Listed h.n self.breaks.now }
        ensures { let h = model.now.shape in
            let v = view area.old h.n in
            let b = self.entry.breaks.now in
            Segments (segment_of h.n (bounds_of v) (compact_of h model.now.theta v) (v vector_x) (v vector_g) (break_list b) (path_of self.entry v)) b v result
            (view area.new h.n) }
    {
        let n = model.shape.n;
        if still(area, n) {
            return ControlFlow::Break(point_on_path(area, n));
        }
        if !compact::product(area, model, area::PRODUCT_D, area::VELOCITY) {
            return ControlFlow::Break(false);
        }
        let curvature = area::dot(area, n, area::VELOCITY, area::PRODUCT_D);
        if !compact::product(area, model, area::PRODUCT_Z, area::DISPLACEMENT) {
            return ControlFlow::Break(false);
        }
        self.by_slope(area, n, slope(area, n), curvature)
    }
}

// The Cauchy point in its vector, where there is one: at most n + 1 segments lead on.
// Kept: a bool. An `Option` would hold the point by value, and what reads it looks in the area.
pub fn generalized_cauchy(area: &mut [f64], model: &compact::Model) -> bool
    requires { let h = model.now.shape in
        Sound h (length area.old) × Prepared model.now (view area.old h.n) × (h.n ≤ most_coordinates) }
    ensures { let h = model.now.shape in
        let v = view area.old h.n in
        Points (generalized_cauchy h.n (bounds_of v) (compact_of h model.now.theta v) (v vector_x) (v vector_g)) v result (view area.new h.n) }
{
    let n = model.shape.n;
    let breaks = find_breaks(area, n);
    let mut path = Path::begin(&breaks, area, n);
    for _ in 0..n + 2 {
        match path.segment(area, model) {
            ControlFlow::Break(ok) => {
                return ok;
            }
            ControlFlow::Continue(reached) => {
                path = reached;
            }
        }
    }
    false
}
