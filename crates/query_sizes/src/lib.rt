// The five sizes of a query, one byte each. Every function takes any bytes, in any number. Each size has a reader of its own, since a name tells more than the place of a byte.
#![tactic(auto)]

ghost use Rattle.std.specs.Prelude.{◌≡◌, ◌≤◌, ◌+◌, ◌^◌};
ghost use Rattle.theory.specs.Limits.{max_produced, max_tested, max_sets};
ghost use Rattle.theory.specs.Query.{column_count, produced_count, tested_count, set_count, dependency_count};

use byte_rows::byte;

// The number of columns, N.
pub fn columns(query: &[u8]) -> u8
    ensures { result ≡ column_count query.now }
{
    byte(query, 0)
}

// The number of produced orders, P.
pub fn produced(query: &[u8]) -> u8
    ensures { result ≡ produced_count query.now }
{
    byte(query, 1)
}

// The number of tested orders, T.
pub fn tested(query: &[u8]) -> u8
    ensures { result ≡ tested_count query.now }
{
    byte(query, 2)
}

// The number of sets, S.
pub fn sets(query: &[u8]) -> u8
    ensures { result ≡ set_count query.now }
{
    byte(query, 3)
}

// The number of dependencies, D.
pub fn dependencies(query: &[u8]) -> u8
    ensures { result ≡ dependency_count query.now }
{
    byte(query, 4)
}

// The sizes that a query's table takes over, within their limits: how many produced orders, tested orders and sets there are.
#[derive(Clone, Copy)]
pub struct Sizes {
    pub produced: usize,
    pub tested: usize,
    pub sets: usize,
    pub ghost few_produced: { produced ≤ max_produced },
    pub ghost few_tested: { tested ≤ max_tested },
    pub ghost few_sets: { sets ≤ max_sets },
}

impl Sizes {
    // How many interesting orders there are, which is how many held bits a row has.
    pub fn orders(self) -> usize
        ensures { result ≡ self.produced + self.tested }
    {
        self.produced + self.tested
    }

    // How many choices of sets in force there are.
    pub fn choices(self) -> usize
        ensures { (result ≡ 2 ^ self.sets) × (result ≤ 256) }
    {
        1usize << self.sets
    }
}
