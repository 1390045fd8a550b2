// Writes what the report program prints for each input of a file, which the first argument names; `oracle/README.md`, "The list of
// reports", has its format.
#![tactic(auto)]

use std::io;
use std::io::Read;

// The next input: a word of how many zero bytes it begins with, a word of how many bytes follow, and these. Whether it came whole.
fn one_case<R: Print, F: Read>(rt: &R, file: &mut F) -> io::Result<bool> {
    let mut head = [[0u8; 8]; 2];
    if !cases::fetch(file, &mut head, 2)? {
        return Ok(false);
    }
    let mut buffer = [0u8; 65_537];
    let zeros = cases::size(&head, 0);
    let end = zeros.wrapping_add(cases::size(&head, 1));
    let Some(bytes) = buffer.get_mut(zeros..end) else {
        return Ok(false);
    };
    if !cases::fetch_bytes(file, bytes)? {
        return Ok(false);
    }
    if let Some(input) = buffer.get(..end) {
        text::write_text(&mut io::writer(rt), input)?;
    }
    Ok(true)
}

fn main(rt: HostRuntime) -> io::Result<()> {
    let Some(mut file) = cases::opened(&rt)? else {
        return Ok(());
    };
    cases::each_case(|_| one_case(&rt, &mut file))
}
