// The report program: a record on standard input, its report on standard output. One byte more than 65,536 is enough to refuse.
#![tactic(auto)]

ghost use Rattle.std.specs.Prelude.{◌≡◌, ◌≤◌, IfOk, OnOk, IfSome, length, take};
ghost use Rattle.std.specs.Io.KnownBytes.{Appends};
ghost use Rattle.definition.specs.Programs.{printed};
ghost use Rattle.text.specs.Text.{text_of};
ghost use Rattle.report.specs.Filled.{Fills};

use std::io;
use std::io::{Read, Write};

// Reads until the buffer is full or the input has ended; how many bytes came.
fn read_full<I: Read>(input: &mut I, buffer: &mut [u8]) -> io::Result<usize>
    ensures within { IfOk result (λ size. size ≤ length buffer.new) }
    ensures bytes { IfOk result (λ size. Fills (I.remaining input.old) buffer.new size) }
{
    let mut size = 0;
    while size < buffer.len() {
        let count = input.read(&mut buffer[size..])?;
        if count == 0 {
            return Ok(size);
        }
        size += count;
    }
    Ok(size)
}

// What is left of an input gives its text, however long it is.
fn report<I: Read, O: Write>(input: &mut I, output: &mut O) -> io::Result<()>
    ensures { OnOk result (IfSome (I.remaining input.old)
        (λ bs. Appends (O.contents output.old) (O.contents output.new) (text_of (printed bs)))) }
{
    let mut bytes = [0u8; 65_537];
    let size = read_full(input, &mut bytes)?;
    text::write_text(output, &bytes[..size])
}

fn main(rt: HostRuntime) -> io::Result<()> {
    report(&mut rt.reader(), &mut io::writer(&rt))
}
