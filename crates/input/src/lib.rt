// A record of at most 65,536 bytes, read into an area and a log that every such record fits: the input of the report program and of the C entry.
#![tactic(auto)]

ghost use Rattle.std.specs.Prelude.{◌≡◌, length};
ghost use Rattle.definition.specs.Programs.{input_area, input_log, read_input};
ghost use Rattle.input.specs.Input.{Taken};

use lbfgsb::{Fit, Refusal};

// The most coordinates of an input.
pub const COORDINATES: usize = 64;

// The words of the area for as many coordinates and 16 pairs.
pub const AREA: usize = 6208;

// As many words as the largest input has.
pub const LOG: usize = 8192;

// The bytes of the largest input.
pub const MOST: usize = 65536;

// The fit of an input, in an area and a log of just these lengths; over 65,536 bytes is 17, checked first.
pub fn read(area: &mut [f64], log: &mut [u64], input: &[u8]) -> Result<Fit, Refusal>
    requires { (length area.old ≡ input_area) × (length log.old ≡ input_log) }
    ensures { Taken (read_input input.now) result area.new log.new }
{
    if MOST < input.len() {
        return Err(Refusal::Malformed);
    }
    lbfgsb::restore(lbfgsb::empty(), area, log, input)
}
