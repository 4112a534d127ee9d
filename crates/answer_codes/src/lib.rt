// An answer as one number: the refusal's number times 65,536 plus the value, which is 0 on refusal.
#![tactic(auto)]

ghost use Rattle.std.specs.Prelude.{◌≡◌, ◌+◌, ◌*◌, ◌<◌};
ghost use Rattle.theory.specs.Table.{refuse};
ghost use Rattle.numbers.specs.Refusals.{refusal_in, answer_in};
ghost use Rattle.answer_codes.specs.Codes.{refusal_unit, answer_code, refused_code};

use numbers::limits;
use numbers::refusals::Refusal;

// A refusal and a value as one number. Here and in `refused` the refusal is any number, as what they promise is said of any.
pub fn coded(refusal: u8, value: usize) -> u32
    requires { value < refusal_unit }
    ensures { result ≡ refusal * refusal_unit + value }
{
    refusal as u32 * limits::REFUSAL_UNIT + value as u32
}

// A refusal, with the value 0.
pub fn refused(n: u8) -> u32
    ensures { result ≡ answer_code (refuse n) }
{
    coded(n, 0)
}

// A value, or the refusal.
pub fn answered(answer: Result<usize, Refusal>) -> u32
    requires { (answer_in answer).value < refusal_unit }
    ensures { result ≡ answer_code (answer_in answer) }
{
    match answer {
        Ok(value) => coded(0, value),
        Err(refusal) => refused(u8::from(refusal)),
    }
}

// A check's refusal, or 0 where it passes.
pub fn checked<T: Drop>(outcome: Result<T, Refusal>) -> u32
    ensures { result ≡ refused_code (refusal_in outcome) }
{
    answered(outcome.map(|_| 0))
}
