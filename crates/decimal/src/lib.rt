// A number in decimal, read from a word's bytes, however many.
#![tactic(auto)]

ghost use Rattle.std.specs.Prelude.{◌≡◌, ◌+◌, ◌*◌, ◌-◌, ◌≤◌, min};
ghost use Rattle.decimal.specs.Words.{large_number, digit_zero, ten, Digit, Reads};

// The first number that no byte holds: it stands for itself and for every larger number.
pub const LARGE_NUMBER: u16 = 256;

// The number with one more digit behind its own.
fn longer(n: u16, digit: u8) -> u16
    requires { (n ≤ large_number) × Digit digit }
    ensures { result ≡ min (n * ten + (digit - digit_zero)) large_number }
{
    (n * 10 + (digit - b'0') as u16).min(LARGE_NUMBER)
}

// The number that a word is, `LARGE_NUMBER` where it is as large or larger. A word that is no number gives none.
pub fn read(word: &[u8]) -> Option<u16>
    ensures { Reads word.now result }
{
    if word.is_empty() {
        return None;
    }
    let mut n = 0;
    for &byte in word {
        if !byte.is_ascii_digit() {
            return None;
        }
        n = longer(n, byte);
    }
    Some(n)
}
