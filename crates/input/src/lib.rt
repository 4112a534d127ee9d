// The beginning of an input, read from any reader.
#![tactic(auto)]

ghost use Rattle.std.specs.Prelude.{length};
ghost use Rattle.input.specs.Within.{ReadWithin, ReadFront};

use std::io;
use std::io::Read;

// Reads until the buffer is full or the input ends, however few bytes a read gives. How many bytes were read, or why a read failed.
pub fn read_front<R: Read>(reader: &mut R, buffer: &mut [u8]) -> io::Result<usize>
    ensures within { ReadWithin result (length buffer.new) }
    ensures front { ReadFront (R.remaining reader.old) result buffer.new }
{
    let mut n = 0;
    while n < buffer.len() {
        match reader.read(&mut buffer[n..])? {
            0 => return Ok(n),
            more => n += more,
        }
    }
    Ok(n)
}
