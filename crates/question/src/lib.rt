// The open question, and the report.
#![tactic(auto)]

ghost use Rattle.std.specs.Prelude.{◌≡◌, ◌+◌, ◌*◌, ◌≤◌, ◌<◌, length};
ghost use Rattle.definition.specs.Gradient.{probes_at};
ghost use Rattle.definition.specs.Machine.{InRange, probe_point, status_of, unreported as unreported_in, question as question_of, report_now as report_in};
ghost use Rattle.area.specs.Area.{Vecs, view, vector_trial, vector_x};
ghost use Rattle.compact.specs.State.{Sound};
ghost use Rattle.gradient.specs.Probing.{probes_in};
ghost use Rattle.fit.specs.State.{machine, machine_of, phase_of, side_of};
ghost use Rattle.question.specs.Reports.{point_asked, written, probe_word, status_in, report_of};

use counters::Termination;
use fit::{Fit, Phase, Place, Side};
use gradient::Probes;

// `Outcome`: the report but for its point.
#[derive(Clone, Copy, Debug)]
pub struct Outcome {
    // how the fit has ended, if it has
    pub termination: Option<Termination>,
    pub value: f64,
    pub nit: usize,
    pub nfev: usize,
    pub njev: usize,
    pub drawn: usize,
}

impl Outcome {
    // The number of how the fit has ended: 0 while it is running.
    pub fn status(self) -> usize
        ensures { result ≡ status_in self.termination }
    {
        self.termination.map_or(0, |why| why.number())
    }
}

// ---- the question

// Vector p into the front of an output slice.
fn copy_out(area: &[f64], n: usize, vector: usize, out: &mut [f64])
    requires { (vector * n + n ≤ length area.now) × (n ≤ length out.old) }
    ensures { out.new ≡ written (view area.now n vector) out.old }
{
    let start = vector * n;
    out[..n].copy_from_slice(&area[start..start + n]);
}

// Coordinate i of a probe's point: x where nothing is probed.
fn probe_word(probes: Probes, side: Side, x: f64) -> f64
    ensures { result ≡ probe_word (probes_in probes) (side_of side) x }
{
    match probes {
        Probes::Neither => x,
        Probes::Both(right, left) => match side {
            Side::Right => right,
            Side::Left => left,
        },
        Probes::RightOnly(right) => right,
        Probes::LeftOnly(left) => left,
    }
}

// The point of a probe of coordinate i.
fn put_probe(fit: Fit, area: &[f64], i: usize, side: Side, out: &mut [f64])
    requires { Sound fit.shape (length area.now) × (i < fit.shape.n) × (fit.shape.n ≤ length out.old) }
    ensures { let x = view area.now fit.shape.n vector_trial in
        out.new ≡ written (probe_point (probes_at (machine_of fit area.now).terms x i) (side_of side) i x) out.old }
{
    let n = fit.shape.n;
    copy_out(area, n, area::TRIAL, out);
    let probes = gradient::probes_at(n, &fit.options, area, i);
    out[i] = probe_word(probes, side, out[i]);
}

// The point of the open question; nothing where there is none.
pub fn put_question(fit: Fit, area: &[f64], out: &mut [f64])
    requires { Sound fit.shape (length area.now) × InRange (phase_of fit.phase) fit.shape.n × (fit.shape.n ≤ length out.old) }
    ensures { out.new ≡ written (point_asked (question_of (machine_of fit area.now))) out.old }
{
    let n = fit.shape.n;
    match fit.phase {
        Phase::Value(_) | Phase::Gradient(_) => copy_out(area, n, area::TRIAL, out),
        Phase::Probe(_, i, side) => put_probe(fit, area, i, side, out),
        Phase::Notice => copy_out(area, n, area::X, out),
        Phase::Ended(_) => {}
    }
}

// ---- the report

// How the fit has ended, if it has.
fn termination(phase: Phase) -> Option<Termination>
    ensures { status_in result ≡ status_of (phase_of phase) }
{
    match phase {
        Phase::Ended(why) => Some(why),
        _ => None,
    }
}

// No value reply yet, or the objective failed: there is no report.
pub fn unreported(phase: Phase) -> bool
    ensures { result ≡ unreported_in (phase_of phase) }
{
    matches!(
        phase,
        Phase::Value(Place::Start) | Phase::Ended(Termination::ObjectiveFailed)
    )
}

// The numbers of the report.
pub fn outcome_of(fit: Fit) -> Outcome
    ensures { (v : Vecs) → report_of result (v vector_x) ≡ report_in (machine fit v) }
{
    Outcome {
        termination: termination(fit.phase),
        value: fit.value,
        nit: fit.counters.nit,
        nfev: fit.counters.nfev,
        njev: fit.counters.njev,
        drawn: fit.counters.nfev,
    }
}

// The point held.
pub fn put_point(fit: Fit, area: &[f64], out: &mut [f64])
    requires { Sound fit.shape (length area.now) × (fit.shape.n ≤ length out.old) }
    ensures { out.new ≡ written (machine_of fit area.now).held.x out.old }
{
    copy_out(area, fit.shape.n, area::X, out);
}
