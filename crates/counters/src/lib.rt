// `Counters` and `Termination`: what is counted, each budget where it is charged, and how a fit ends.
#![tactic(auto)]

ghost use Rattle.std.specs.Prelude.{◌≡◌, ◌<◌};
ghost use Rattle.definition.specs.Counters.{status_number, first_counters, value_left};
ghost use Rattle.definition.specs.Counters.{charge_gradient as charge_gradient_of, charge_iteration as charge_iteration_of, iterations_spent};
ghost use Rattle.problem.specs.Setups.{limits_of};
ghost use Rattle.counters.specs.Counts.{counters_of, termination_of, charge_of, value_charged, value_charge, most_counted};

use problem::Limits;

#[derive(Clone, Copy, Debug, PartialEq, Eq)]
pub enum Termination {
    GTol = 1,
    FTol = 2,
    MaxIterations = 3,
    MaxEvaluations = 4,
    Cancelled = 5,
    Nonfinite = 6,
    LineSearchFailed = 7,
    ObjectiveFailed = 8,
}

// No count is near where a sum would wrap.
pub const MOST_COUNTED: usize = 0x4000_0000_0000_0000;

#[derive(Clone, Copy, Debug, Default, PartialEq, Eq)]
pub struct Counters {
    pub nit: usize,
    pub nfev: usize,
    pub njev: usize,
}

impl Termination {
    // The status that a report gives.
    pub fn number(self) -> usize
        ensures { result ≡ status_number (termination_of self) }
    {
        self as usize
    }
}

impl Counters {
    // The counters on opening: the first value question is charged.
    pub fn first() -> Counters
        ensures { counters_of result ≡ first_counters }
    {
        Counters {
            nfev: 1,
            ..Counters::default()
        }
    }

    // Whether the budget of iterations is spent, looked at after the notice.
    pub fn iterations_spent(self, limits: Limits) -> bool
        ensures { result ≡ iterations_spent (limits_of limits) (counters_of self) }
    {
        limits.maxiter <= self.nit
    }

    // A value question charged, unless the budget of values is spent.
    pub fn value_charged(self, limits: Limits) -> Option<Counters>
        ensures { charge_of result ≡ value_charge (limits_of limits) (counters_of self) }
    {
        if limits.maxfev <= self.nfev {
            return None;
        }
        Some(Counters {
            nfev: self.nfev + 1,
            ..self
        })
    }

    // A gradient charged: supplied, or differenced and complete.
    pub fn gradient_charged(self) -> Counters
        requires { self.njev < most_counted }
        ensures { counters_of result ≡ charge_gradient_of (counters_of self) }
    {
        Counters {
            njev: self.njev + 1,
            ..self
        }
    }

    // An iteration charged, before its notice.
    pub fn iteration_charged(self) -> Counters
        requires { self.nit < most_counted }
        ensures { counters_of result ≡ charge_iteration_of (counters_of self) }
    {
        Counters {
            nit: self.nit + 1,
            ..self
        }
    }

    // `Counters::value`: charges a value question and says so, or says that the budget is spent and charges nothing.
    // Kept: a rule of the project, that the counters are lent by &mut to thin functions above those by value.
    pub fn charge_value(&mut self, limits: Limits) -> bool
        ensures counters { counters_of self.new ≡ value_charged (limits_of limits) (counters_of self.old) }
        ensures left { result ≡ value_left (limits_of limits) (counters_of self.old) }
    {
        let Some(charged) = self.value_charged(limits) else {
            return false;
        };
        *self = charged;
        true
    }

    // `Counters::charge_gradient`
    pub fn charge_gradient(&mut self)
        requires { self.old.njev < most_counted }
        ensures { counters_of self.new ≡ charge_gradient_of (counters_of self.old) }
    {
        *self = self.gradient_charged();
    }

    // The count of `Counters::end_iteration`
    pub fn charge_iteration(&mut self)
        requires { self.old.nit < most_counted }
        ensures { counters_of self.new ≡ charge_iteration_of (counters_of self.old) }
    {
        *self = self.iteration_charged();
    }
}
