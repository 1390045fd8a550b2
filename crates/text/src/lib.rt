// The text of the report program: what it prints for an input's bytes.
#![tactic(auto)]

ghost use Rattle.std.specs.Prelude.{◌≡◌, ◌+◌, ◌*◌, ◌≤◌, [], ◌++◌, length, OnOk};
ghost use Rattle.std.specs.Io.KnownBytes.{Appends};
ghost use Rattle.arrayvec.specs.ArrayVec.{array_vec_len};
ghost use Rattle.definition.specs.Programs.{input_coordinates, input_area, input_log, printed};
ghost use Rattle.question.specs.Reports.{report_of, written};
ghost use Rattle.text.specs.Text.{newline, count_line, float_line, report_lines, text_of};
ghost use Rattle.text.specs.Shown.{printed_as, FewLines};

use arrayvec::ArrayVec;
use lbfgsb::{Outcome, Refusal};
use std::io::Write;

// Kept: bytes, and no `Display`. The contracts of a formatter say what is written where its result is `Ok`, and never that it is.
type Text = ArrayVec<u8, 2048>;

// A report.
#[derive(Clone, Copy)]
struct Lines<'a> {
    outcome: Outcome,
    point: &'a [f64],
}

// ---- lines

fn push(text: &mut Text, bytes: &[u8])
    requires { array_vec_len text.old + length bytes.now ≤ 2048 }
    ensures items { text.new.items ≡ text.old.items ++ bytes.now }
    ensures len { array_vec_len text.new ≡ array_vec_len text.old + length bytes.now }
{
    text.try_extend_from_slice(bytes).unwrap();
}

// A word, what is to its right, and the end of the line.
fn push_line(text: &mut Text, name: &[u8], value: &[u8])
    requires { array_vec_len text.old + length name.now + length value.now + 1 ≤ 2048 }
    ensures items { text.new.items ≡ text.old.items ++ (name.now ++ value.now ++ newline) }
    ensures len { array_vec_len text.new ≡ array_vec_len text.old + length name.now + length value.now + 1 }
{
    push(text, name);
    push(text, value);
    push(text, b"\n");
}

// The line of a count.
fn push_count(text: &mut Text, name: &[u8], n: usize)
    requires { array_vec_len text.old + length name.now + 21 ≤ 2048 }
    ensures items { text.new.items ≡ text.old.items ++ count_line name.now n }
    ensures len { array_vec_len text.new ≤ array_vec_len text.old + length name.now + 21 }
{
    push_line(text, name, itoa::Buffer::new().format(n).as_bytes());
}

// The line of a float, as the 16 digits of its word.
fn push_float(text: &mut Text, name: &[u8], x: f64)
    requires { array_vec_len text.old + length name.now + 17 ≤ 2048 }
    ensures items { text.new.items ≡ text.old.items ++ float_line name.now x }
    ensures len { array_vec_len text.new ≡ array_vec_len text.old + length name.now + 17 }
{
    let mut digits = [0u8; 16];
    let count = io::hex(float::float_to_word(x), 16, &mut digits);
    push_line(text, name, &digits[..count]);
}

// The lines of a report.
fn text_of_report(lines: Lines) -> Text
    requires { length lines.point.now ≤ input_coordinates }
    ensures { result.items ≡ report_lines (report_of lines.entry.outcome lines.entry.point.now) }
{
    let outcome = lines.outcome;
    let mut text = Text::new();
    push_count(&mut text, b"status ", outcome.status());
    push_count(&mut text, b"nit ", outcome.nit);
    push_count(&mut text, b"nfev ", outcome.nfev);
    push_count(&mut text, b"njev ", outcome.njev);
    push_float(&mut text, b"fun ", outcome.value);
    for x in lines.point {
        push_float(&mut text, b"x ", *x);
    }
    text
}

// ---- the report

// The report of an input, with an area, a log and a point that hold any fit of it.
fn report<'a>(
    input: &[u8],
    area: &mut [f64],
    log: &mut [u64],
    point: &'a mut [f64],
) -> Result<Lines<'a>, Refusal>
    requires { (length area.old ≡ input_area) × (length log.old ≡ input_log) × (length point.old ≡ input_coordinates) }
    ensures shown { printed_as result ≡ printed input.now }
    ensures few { FewLines result }
{
    let fit = input::read(area, log, input)?;
    let outcome = lbfgsb::report(fit, area, point)?;
    Ok(Lines {
        outcome,
        point: &point[..fit.shape.n],
    })
}

// What the report program prints for an input.
fn text_of_input(input: &[u8]) -> Text
    ensures items { result.items ≡ text_of (printed input.now) }
    ensures short { length (text_of (printed input.now)) ≤ 2048 }
{
    let mut area = [0.0f64; input::AREA];
    let mut log = [0u64; input::LOG];
    let mut point = [0.0f64; input::COORDINATES];
    match report(input, &mut area, &mut log, &mut point) {
        Ok(lines) => text_of_report(lines),
        Err(refusal) => {
            let mut text = Text::new();
            push_count(&mut text, b"refused ", refusal.number());
            text
        }
    }
}

// What the report program prints for an input, in the front of the output; how many bytes it is.
pub fn put_text(input: &[u8], out: &mut [u8]) -> usize
    requires { 2048 ≤ length out.old }
    ensures { let t = text_of (printed input.now) in
        (result ≡ length t) × (out.new ≡ written t out.old) × (result ≤ length out.new) }
{
    let text = text_of_input(input);
    out[..text.len()].copy_from_slice(&text);
    text.len()
}

// Writes what the report program prints for an input.
pub fn write_text<W: Write>(output: &mut W, input: &[u8]) -> std::io::Result<()>
    ensures appends { OnOk result (Appends (W.contents output.old) (W.contents output.new) (text_of (printed input.now))) }
    ensures short { length (text_of (printed input.now)) ≤ 2048 }
{
    output.write_all(&text_of_input(input))
}
