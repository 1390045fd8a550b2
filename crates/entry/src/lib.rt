// The C entry: a record's bytes in, a number back, and the point of the open question, or the held one, in the output.
#![tactic(auto)]

ghost use Rattle.std.specs.Prelude.{◌≡◌, List, map, ℕ, ◌*◌, ◌≤◌, length};
ghost use Rattle.definition.specs.Number.{to_word};
ghost use Rattle.definition.specs.Machine.{question};
ghost use Rattle.definition.specs.Book.{Book, run_of};
ghost use Rattle.definition.specs.Record.{bytes};
ghost use Rattle.definition.specs.Programs.{input_coordinates, return_point, return_end, return_fit, returned};
ghost use Rattle.question.specs.Reports.{written};
ghost use Rattle.lbfgsb.specs.Words.{words, Held};
ghost use Rattle.entry.specs.Entry.{Returns, HasEnded};

use lbfgsb::Fit;

// The words of the floats, little-endian, into the front of the output.
// Kept: an index. What `chunks_exact_mut` leaves in the output is not known to a proof.
fn put_floats(out: &mut [u8], point: &[f64])
    requires { 8 * length point.now ≤ length out.old }
    ensures { out.new ≡ written (bytes (map to_word point.now)) out.old }
{
    for (i, x) in point.iter().enumerate() {
        record::put_word(out, 8 * i, float::float_to_word(*x));
    }
}

// The number, with the floats in the output; 119 where it is too short for them.
fn put_point(out: &mut [u8], number: u64, point: &[f64]) -> u64
    ensures { Returns (return_point (length out.old) number point.now) result out.old out.new }
{
    if out.len() / 8 < point.len() {
        return 119;
    }
    put_floats(out, point);
    number
}

// What stands in the output where nothing is asked: the held point, and nothing after a failure.
fn ended(fit: Fit, area: &[f64], out: &mut [u8]) -> u64
    requires { fit.shape.n ≤ input_coordinates }
    ensures { (l : List ℕ) (b : Book) → Held (words fit area.now l) b → HasEnded (run_of b)
        → Returns (return_end (length out.old) (run_of b)) result out.old out.new }
{
    let mut point = [0.0f64; input::COORDINATES];
    let Ok(_) = lbfgsb::report(fit, area, &mut point) else {
        return 0;
    };
    put_point(out, 0, &point[..fit.shape.n])
}

// What stands in the output of a fit: the point of the open question, or the end's.
fn answer(fit: Fit, area: &[f64], out: &mut [u8]) -> u64
    requires { fit.shape.n ≤ input_coordinates }
    ensures { (l : List ℕ) (b : Book) → Held (words fit area.now l) b
        → Returns (return_fit (length out.old) (run_of b) (question (run_of b))) result out.old out.new }
{
    let mut point = [0.0f64; input::COORDINATES];
    let Some(kind) = lbfgsb::question(fit, area, &mut point).unwrap_or(None) else {
        return ended(fit, area, out);
    };
    put_point(out, kind.number() as u64, &point[..fit.shape.n])
}

// 1 a value, 2 a gradient, 3 a notice is asked, 0 the fit has ended, or 100 and the number of a refusal.
#[unsafe(no_mangle)]
pub extern "C" fn lbfgsb_entry(input: &[u8], out: &mut [u8]) -> u64
    ensures { Returns (returned (length out.old) input.now) result out.old out.new }
{
    let mut area = [0.0f64; input::AREA];
    let mut log = [0u64; input::LOG];
    match input::read(&mut area, &mut log, input) {
        Ok(fit) => answer(fit, &area, out),
        Err(refusal) => 100 + refusal.number() as u64,
    }
}
