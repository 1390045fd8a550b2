// A worked fit through the exported operations: the least of (x - 1)^2 + 10 (y + 1/2)^2 where x is at most 1/2, from (-1, 1).
#![tactic(auto)]

use lbfgsb::{Fit, Kind, Options, Refusal, Reply, Setup};
use std::{fmt, io};

// The area's words for 2 coordinates and the 10 pairs of the default.
const AREA: usize = 552;

const LOG: usize = 128;

// ---- the objective

// A point, shown by its words.
#[derive(Clone, Copy)]
struct Point {
    x: f64,
    y: f64,
}

impl Point {
    // The point of an output.
    fn of(output: [f64; 2]) -> Self {
        Point {
            x: output[0],
            y: output[1],
        }
    }

    fn value(self) -> u64 {
        let Point { x, y } = self;
        float::float_to_word((x - 1.0) * (x - 1.0) + 10.0 * (y + 0.5) * (y + 0.5))
    }

    fn gradient(self) -> [u64; 2] {
        [
            float::float_to_word(2.0 * (self.x - 1.0)),
            float::float_to_word(20.0 * (self.y + 0.5)),
        ]
    }
}

impl fmt::Display for Point {
    fn fmt<W: fmt::Write>(&self, formatter: &mut fmt::Formatter<W>) -> fmt::Result {
        let x = float::float_to_word(self.x);
        let y = float::float_to_word(self.y);
        write!(formatter, "{x:016x} {y:016x}")
    }
}

// ---- the fit

// The reply to a question of this kind at a point.
fn replied<R: Print>(
    rt: &R,
    fit: Fit,
    area: &mut [f64],
    log: &mut [u64],
    kind: Kind,
    point: Point,
) -> io::Result<Result<Fit, Refusal>> {
    let (name, reply) = match kind {
        Kind::Value => ("value", Reply::Value(point.value())),
        Kind::Gradient => ("gradient", Reply::Gradient),
        Kind::Notice => ("notice", Reply::GoOn),
    };
    println!(rt; "{name} {point}")?;
    Ok(lbfgsb::reply(fit, area, log, reply, &point.gradient()))
}

// The fit after one question and its reply; refused where nothing is asked.
fn turn<R: Print>(
    rt: &R,
    fit: Fit,
    area: &mut [f64],
    log: &mut [u64],
) -> io::Result<Result<Fit, Refusal>> {
    let mut output = [0.0f64; 2];
    match lbfgsb::question(fit, area, &mut output) {
        Ok(Some(kind)) => replied(rt, fit, area, log, kind, Point::of(output)),
        Ok(None) => Ok(Err(Refusal::NotDue)),
        Err(refusal) => Ok(Err(refusal)),
    }
}

// Question after question until there is none, or a hundred of them.
fn fitted<R: Print>(rt: &R, first: Fit, area: &mut [f64], log: &mut [u64]) -> io::Result<Fit> {
    let mut fit = first;
    for _ in 0..100 {
        let Ok(next) = turn(rt, fit, area, log)? else {
            return Ok(fit);
        };
        fit = next;
    }
    Ok(fit)
}

fn report<R: Print>(rt: &R, fit: Fit, area: &[f64]) -> io::Result<()> {
    let mut output = [0.0f64; 2];
    let Ok(outcome) = lbfgsb::report(fit, area, &mut output) else {
        return Ok(());
    };
    println!(rt; "status {}", outcome.status())?;
    println!(rt; "nit {}", outcome.nit)?;
    println!(rt; "nfev {}", outcome.nfev)?;
    println!(rt; "njev {}", outcome.njev)?;
    println!(rt; "point {}", Point::of(output))
}

fn main(rt: HostRuntime) -> io::Result<()> {
    let mut area = [0.0f64; AREA];
    let mut log = [0u64; LOG];
    let setup = Setup {
        options: Options {
            bounded: true,
            ..lbfgsb::no_options()
        },
        x0: &[-1.0f64, 1.0],
        lower: &[-2.0f64, -2.0],
        upper: &[0.5f64, 2.0],
    };
    let Ok(first) = lbfgsb::start(lbfgsb::empty(), &mut area, setup) else {
        return Ok(());
    };
    let fit = fitted(&rt, first, &mut area, &mut log)?;
    report(&rt, fit, &area)
}
