// A set of numbers as bytes, bit i for the number i.
#![tactic(auto)]

ghost use Rattle.std.specs.Prelude.{◌≡◌, ◌/◌, ◌<◌, length};
ghost use Rattle.bit_sets.specs.BitSets.{in_bits, with_bit};

// Whether i is in the set.
pub fn has(bits: &[u8], i: usize) -> bool
    requires { i / 8 < length bits.now }
    ensures { result ≡ in_bits bits.now i }
{
    (bits[i / 8] >> (i % 8)) & 1 == 1
}

// Put i into the set.
pub fn add(bits: &mut [u8], i: usize)
    requires { i / 8 < length bits.old }
    ensures { (bits.new ≡ with_bit bits.old i) × (length bits.new ≡ length bits.old) }
{
    bits[i / 8] |= 1 << (i % 8);
}
