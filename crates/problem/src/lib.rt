// `Problem`, `Common` and `LbfgsbOptions`: the setup of a fit, its checks in their order, and the values that apply.
#![tactic(auto)]

ghost use Rattle.std.specs.Prelude.{◌≡◌, ◌<◌, ◌||◌, Some, List, length, Float};
ghost use Rattle.std.specs.Float.Ieee.{eq, lt};
ghost use Rattle.definition.specs.Number.{infinity, neg_infinity};
ghost use Rattle.definition.specs.Problem.{when, refuse, ◌then◌, given, check_side, check_bounds, positive as positive_of};
ghost use Rattle.definition.specs.Problem.{finite_positive, finite_nonnegative, at_most};
ghost use Rattle.definition.specs.Problem.{check_problem, check_common, check_options, check_limits, validate as validate_of};
ghost use Rattle.problem.specs.Setups.{count_detail, positive_detail, nonnegative_detail, limited_detail, refusal_of, check_of};
ghost use Rattle.problem.specs.Setups.{box_of, setup_in, setup_of, each_finite, each_number, each_pair, no_options, limits_of, limits_in, places_in};

// What applies where a setup does not say, as in the Rust.
const DEFAULT_BUDGET: usize = 15_000;

const DEFAULT_MAXCOR: usize = 10;

// The added limits.
pub const MOST_COORDINATES: usize = 64;

pub const MOST_PAIRS: usize = 16;

pub const MOST_BUDGET: usize = 1_000_000;

// `FiniteDifference`
#[derive(Clone, Copy, Debug, Default, PartialEq, Eq)]
pub enum Scheme {
    #[default]
    Forward,
    Central,
}

// The setup but for its vectors, as it was given.
// Kept: fixed memory. A fit keeps its bounds in the area, so a flag says whether they count.
#[derive(Clone, Copy, Debug, Default)]
pub struct Options {
    pub bounded: bool,
    pub maxiter: Option<usize>,
    pub maxfev: Option<usize>,
    pub tol: Option<f64>,
    pub ftol: Option<f64>,
    pub gtol: Option<f64>,
    pub maxcor: Option<usize>,
    pub eps: Option<f64>,
    pub scheme: Scheme,
}

// The setup of a fit: its bounds count only where the options say so.
#[derive(Clone, Copy)]
pub struct Setup<'a> {
    pub options: Options,
    pub x0: &'a [f64],
    pub lower: &'a [f64],
    pub upper: &'a [f64],
}

// The limits in force.
#[derive(Clone, Copy, Default)]
pub struct Limits {
    pub ftol: f64,
    pub gtol: f64,
    pub maxiter: usize,
    pub maxfev: usize,
}

// The counts that must be positive, each with the detail that its refusal has.
#[derive(Clone, Copy, Debug, PartialEq, Eq)]
pub enum PositiveCount {
    Maxiter = 1,
    Maxfev = 2,
    Maxcor = 3,
}

// The numbers that must be finite and positive, with their details.
#[derive(Clone, Copy, Debug, PartialEq, Eq)]
pub enum PositiveFloat {
    Tol = 1,
    Eps = 2,
}

// The numbers that must be finite and at least 0, with their details.
#[derive(Clone, Copy, Debug, PartialEq, Eq)]
pub enum NonnegativeFloat {
    Ftol = 1,
    Gtol = 2,
}

// The counts that have a limit, with their details.
#[derive(Clone, Copy, Debug, PartialEq, Eq)]
pub enum Limited {
    Coordinates = 1,
    Maxcor = 2,
    Maxiter = 3,
    Maxfev = 4,
}

// Why a call is refused: `InvalidInput`, then what the Rust lacks.
#[derive(Clone, Copy, Debug, PartialEq, Eq)]
pub enum Refusal {
    EmptyX0,
    NonfiniteX0 { index: usize },
    BoundsLength { expected: usize, found: usize },
    NanBound { index: usize },
    BoundsOrder { index: usize },
    InfeasibleBound { index: usize },
    NotPositive(PositiveCount),
    NotFinitePositive(PositiveFloat),
    NotFiniteNonnegative(NonnegativeFloat),
    OverLimit(Limited),
    AreaShort { needed: usize },
    LogShort,
    NotDue,
    GradientLength { expected: usize, found: usize },
    NoReport,
    TooFewReplies,
    Malformed,
    SumsDiffer,
    OutputShort { needed: usize },
}

impl Refusal {
    // The refusal's number.
    pub fn number(self) -> usize
        ensures { result ≡ (refusal_of self).number }
    {
        match self {
            Refusal::EmptyX0 => 1,
            Refusal::NonfiniteX0 { .. } => 2,
            Refusal::BoundsLength { .. } => 3,
            Refusal::NanBound { .. } => 4,
            Refusal::BoundsOrder { .. } => 5,
            Refusal::InfeasibleBound { .. } => 6,
            Refusal::NotPositive(_) => 7,
            Refusal::NotFinitePositive(_) => 8,
            Refusal::NotFiniteNonnegative(_) => 9,
            Refusal::OverLimit(_) => 10,
            Refusal::AreaShort { .. } => 11,
            Refusal::LogShort => 12,
            Refusal::NotDue => 13,
            Refusal::GradientLength { .. } => 14,
            Refusal::NoReport => 15,
            Refusal::TooFewReplies => 16,
            Refusal::Malformed => 17,
            Refusal::SumsDiffer => 18,
            Refusal::OutputShort { .. } => 19,
        }
    }

    // Its two details, 0 where it has none.
    pub fn details(self) -> (usize, usize)
        ensures first { result.0 ≡ (refusal_of self).first }
        ensures second { result.1 ≡ (refusal_of self).second }
    {
        match self {
            Refusal::NonfiniteX0 { index } | Refusal::NanBound { index } => (index, 0),
            Refusal::BoundsOrder { index } | Refusal::InfeasibleBound { index } => (index, 0),
            Refusal::BoundsLength { expected, found } => (expected, found),
            Refusal::GradientLength { expected, found } => (expected, found),
            Refusal::NotPositive(option) => (option as usize, 0),
            Refusal::NotFinitePositive(option) => (option as usize, 0),
            Refusal::NotFiniteNonnegative(option) => (option as usize, 0),
            Refusal::OverLimit(of) => (of as usize, 0),
            Refusal::AreaShort { needed } | Refusal::OutputShort { needed } => (needed, 0),
            _ => (0, 0),
        }
    }
}

// No box, and every option absent.
pub fn no_options() -> Options
    ensures { result ≡ no_options }
{
    Options::default()
}

// 2 at the first coordinate of the start that is not finite.
#[tactic(auto, unfolding(definition::specs::Vector::fold_to))]
fn check_start(x0: &[f64]) -> Result<(), Refusal>
    ensures { check_of result ≡ each_finite x0.now }
{
    for (index, x) in x0.iter().enumerate() {
        if !float::is_finite(*x) {
            return Err(Refusal::NonfiniteX0 { index });
        }
    }
    Ok(())
}

// 4 at the first bound of a side that is a NaN.
// Kept: beside `check_start`. One function of both would be given the test and the refusal as closures, and is no shorter.
#[tactic(auto, unfolding(definition::specs::Vector::fold_to))]
fn check_numbers(side: &[f64]) -> Result<(), Refusal>
    ensures { check_of result ≡ each_number side.now }
{
    for (index, x) in side.iter().enumerate() {
        if float::is_nan(*x) {
            return Err(Refusal::NanBound { index });
        }
    }
    Ok(())
}

// A side of the box: 3 for its length, then 4.
fn check_side(expected: usize, side: &[f64]) -> Result<(), Refusal>
    ensures { check_of result ≡ check_side expected side.now }
{
    let found = side.len();
    if found != expected {
        return Err(Refusal::BoundsLength { expected, found });
    }
    check_numbers(side)
}

// Whether no finite number lies between two bounds in order.
fn infeasible(low: f64, high: f64) -> bool
    ensures { result ≡ (eq low infinity || eq high neg_infinity) }
{
    low == float::infinity() || high == float::neg_infinity()
}

// A coordinate's pair of bounds: 5 for their order, then 6 where no finite number lies between them.
fn check_pair(index: usize, low: f64, high: f64) -> Result<(), Refusal>
    ensures { check_of result
        ≡ (when (lt high low) (refuse 5 index 0) then when (eq low infinity || eq high neg_infinity) (refuse 6 index 0)) }
{
    if high < low {
        return Err(Refusal::BoundsOrder { index });
    }
    if infeasible(low, high) {
        return Err(Refusal::InfeasibleBound { index });
    }
    Ok(())
}

// 5 and 6 for each coordinate in turn.
#[tactic(auto, using(crate::proofs::Laws::each_refused), unfolding(definition::specs::Vector::fold_to))]
fn check_pairs(lower: &[f64], upper: &[f64]) -> Result<(), Refusal>
    requires { length lower.now ≡ length upper.now }
    ensures { check_of result ≡ each_pair (box_of lower.now upper.now) }
{
    for (index, (low, high)) in lower.iter().zip(upper).enumerate() {
        check_pair(index, *low, *high)?;
    }
    Ok(())
}

// The box: its lower side, its upper side, then the pairs.
fn check_bounds(n: usize, lower: &[f64], upper: &[f64]) -> Result<(), Refusal>
    ensures { check_of result ≡ check_bounds n (box_of lower.now upper.now) }
{
    check_side(n, lower)?;
    check_side(n, upper)?;
    check_pairs(lower, upper)
}

// A refusal where a test says so.
fn refuse_if(test: bool, refusal: Refusal) -> Result<(), Refusal>
    ensures { check_of result ≡ when test (Some (refusal_of refusal)) }
{
    if test { Err(refusal) } else { Ok(()) }
}

// 7 for a count of zero.
fn positive(option: PositiveCount, count: Option<usize>) -> Result<(), Refusal>
    ensures { check_of result ≡ given (positive_of (count_detail option)) count }
{
    refuse_if(count == Some(0), Refusal::NotPositive(option))
}

// 8 for a number that is not finite and positive.
fn finite_positive(option: PositiveFloat, value: Option<f64>) -> Result<(), Refusal>
    ensures { check_of result ≡ given (finite_positive (positive_detail option)) value }
{
    let refused = value.is_some_and(|x| !float::is_finite(x) || x <= 0.0);
    refuse_if(refused, Refusal::NotFinitePositive(option))
}

// 9 for a number that is not finite and at least 0.
// Kept: beside `finite_positive`. They differ in the test, the option's type and the refusal, all that each has.
fn finite_nonnegative(option: NonnegativeFloat, value: Option<f64>) -> Result<(), Refusal>
    ensures { check_of result ≡ given (finite_nonnegative (nonnegative_detail option)) value }
{
    let refused = value.is_some_and(|x| !float::is_finite(x) || x < 0.0);
    refuse_if(refused, Refusal::NotFiniteNonnegative(option))
}

// 10 for a count over its limit.
fn at_most(limit: usize, of: Limited, count: Option<usize>) -> Result<(), Refusal>
    ensures { check_of result ≡ given (at_most limit (limited_detail of)) count }
{
    refuse_if(count.is_some_and(|k| limit < k), Refusal::OverLimit(of))
}

impl Options {
    // `Common::validate`: maxiter, maxfev, tol.
    #[tactic(auto, unfolding(definition::specs::Problem::check_common))]
    fn check_common(self) -> Result<(), Refusal>
        ensures { (x0 lower upper : List Float) → check_of result ≡ check_common (setup_in self x0 lower upper) }
    {
        positive(PositiveCount::Maxiter, self.maxiter)?;
        positive(PositiveCount::Maxfev, self.maxfev)?;
        finite_positive(PositiveFloat::Tol, self.tol)
    }

    // `LbfgsbOptions::validate`: ftol, gtol, maxcor, eps.
    #[tactic(auto, unfolding(definition::specs::Problem::check_options))]
    fn check_options(self) -> Result<(), Refusal>
        ensures { (x0 lower upper : List Float) → check_of result ≡ check_options (setup_in self x0 lower upper) }
    {
        finite_nonnegative(NonnegativeFloat::Ftol, self.ftol)?;
        finite_nonnegative(NonnegativeFloat::Gtol, self.gtol)?;
        positive(PositiveCount::Maxcor, self.maxcor)?;
        finite_positive(PositiveFloat::Eps, self.eps)
    }

    // The limits that a setup puts in force: ftol and gtol fall back to tol, then to the defaults; budgets to 15,000.
    #[tactic(auto, using(float::proofs::Constants::default_ftol_is, float::proofs::Constants::default_gtol_is))]
    pub fn limits(self) -> Limits
        ensures { limits_of result ≡ limits_in self }
    {
        Limits {
            ftol: self.ftol.or(self.tol).unwrap_or(float::DEFAULT_FTOL),
            gtol: self.gtol.or(self.tol).unwrap_or(float::DEFAULT_GTOL),
            maxiter: self.maxiter.unwrap_or(DEFAULT_BUDGET),
            maxfev: self.maxfev.unwrap_or(DEFAULT_BUDGET),
        }
    }

    // The pairs that a setup allows, 10 where it does not say.
    pub fn places(self) -> usize
        ensures { result ≡ places_in self }
    {
        self.maxcor.unwrap_or(DEFAULT_MAXCOR)
    }
}

impl Setup<'_> {
    // `Problem::validate`: the start, 1 and 2, then the box where there is one.
    #[tactic(auto, unfolding(definition::specs::Problem::check_problem))]
    fn check_problem(self) -> Result<(), Refusal>
        ensures { check_of result ≡ check_problem (setup_of self.entry) }
    {
        let n = self.x0.len();
        if n == 0 {
            return Err(Refusal::EmptyX0);
        }
        check_start(self.x0)?;
        if self.options.bounded {
            return check_bounds(n, self.lower, self.upper);
        }
        Ok(())
    }

    // The added limits: n, maxcor, maxiter, maxfev.
    #[tactic(auto, unfolding(definition::specs::Problem::check_limits))]
    fn check_limits(self) -> Result<(), Refusal>
        ensures { check_of result ≡ check_limits (setup_of self.entry) }
    {
        at_most(MOST_COORDINATES, Limited::Coordinates, Some(self.x0.len()))?;
        at_most(MOST_PAIRS, Limited::Maxcor, self.options.maxcor)?;
        at_most(MOST_BUDGET, Limited::Maxiter, self.options.maxiter)?;
        at_most(MOST_BUDGET, Limited::Maxfev, self.options.maxfev)
    }

    // The setup's refusals, in their order: problem, common, options, added limits.
    #[tactic(auto, unfolding(definition::specs::Problem::validate))]
    pub fn validate(self) -> Result<(), Refusal>
        ensures { check_of result ≡ validate_of (setup_of self.entry) }
    {
        self.check_problem()?;
        self.options.check_common()?;
        self.options.check_options()?;
        self.check_limits()
    }
}
