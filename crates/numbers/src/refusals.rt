// The refusal list: each refusal by its word, with its number. The number 7 is never given, so no refusal has it.
ghost use Rattle.std.specs.Prelude.{◌≡◌};

#[derive(Clone, Copy, PartialEq, Eq, Debug)]
pub enum Refusal {
    Length = 1,
    Size = 2,
    Item = 3,
    Column = 4,
    Repeat = 5,
    Twin = 6,
    States = 8,
    Space = 9,
    Handle = 10,
    Row = 11,
    Mismatch = 12,
    Answer = 13,
    Count = 14,
}

// A refusal's number.
impl From<Refusal> for u8 {
    ghost use Rattle.numbers.specs.Refusals.{number_of};

    ghost from_gives = { λ refusal n. n ≡ number_of refusal };

    fn from(refusal: Refusal) -> u8 {
        refusal as u8
    }
}
