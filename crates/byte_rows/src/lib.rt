// Bytes, words and rows of bytes of any width, read, written and cleared. Reading a byte or a word and clearing take any bytes; reading a row and copying require that it lies
// within the bytes, which their callers have shown: neither is an entry point.
#![tactic(auto)]

ghost use Rattle.std.specs.Prelude.{◌≡◌, ◌+◌, ◌*◌, ◌≤◌, length, take, drop};
ghost use Rattle.std.proofs.Math.Seq.{paste};
ghost use Rattle.theory.specs.Query.{byte_at, row_at};
ghost use Rattle.theory.specs.Build.{zeroed};

// Byte i; 0 past the end.
pub fn byte(bytes: &[u8], i: usize) -> u8
    ensures { result ≡ byte_at bytes.now i }
{
    if i < bytes.len() { bytes[i] } else { 0 }
}

// Two bytes as a word, low byte first.
pub fn word(low: u8, high: u8) -> u16
    ensures { result ≡ low + 256 * high }
{
    u16::from_le_bytes([low, high])
}

// The row reader: the first bytes of a part that starts at a row.
fn first(part: &[u8], width: usize) -> &[u8]
    requires { width ≤ length part.now }
    ensures { (result.now ≡ take width part.now) × (length result.now ≡ width) }
{
    &part[..width]
}

// The n bytes from a place on, as they are in the bytes.
pub fn part(bytes: &[u8], at: usize, n: usize) -> &[u8]
    requires { at + n ≤ length bytes.now }
    ensures { (result.now ≡ take n (drop at bytes.now)) × (length result.now ≡ n) }
{
    first(&bytes[at..], n)
}

// Row i of an array of rows that begins at `base`, as it is in the bytes.
pub fn row(bytes: &[u8], base: usize, width: usize, i: usize) -> &[u8]
    requires { base + i * width + width ≤ length bytes.now }
    ensures { (result.now ≡ row_at base width i bytes.now) × (length result.now ≡ width) }
{
    part(bytes, base + i * width, width)
}

// Write bytes at a place. The rest of the output keeps its bytes.
pub fn copy(out: &mut [u8], at: usize, from: &[u8])
    requires { at + length from.now ≤ length out.old }
    ensures { out.new ≡ paste out.old at from.now (length from.now) }
{
    for i in 0..from.len() {
        out[at + i] = from[i];
    }
}

// Every byte becomes 0.
pub fn clear(part: &mut [u8])
    ensures { part.new ≡ zeroed (length part.old) part.old }
{
    for byte in part.iter_mut() {
        *byte = 0;
    }
}
