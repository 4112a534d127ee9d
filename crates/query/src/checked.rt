// A query whose bytes passed the checks 1 to 6.
ghost use Rattle.std.specs.Prelude.{◌≡◌, ◌≤◌, List, ℕ};
ghost use Rattle.theory.specs.Refusals.{passed};
ghost use Rattle.theory.specs.Query.{produced_count, tested_count, set_count, query_refusal};

use query_sizes::Sizes;
use std::marker::Model;

// What is built and looked for, is from such a query alone. A clause sees its bytes.
#[derive(Drop)]
pub struct CheckedQuery<'a> {
    bytes: &'a [u8],
}

impl<'a> Model for CheckedQuery<'a> {
    ghost Value = { List ℕ };

    ghost view = { λ query. query.bytes.now };

    ghost invariant = { λ query. query_refusal query.bytes.now ≡ passed };
}

impl<'a> CheckedQuery<'a> {
    // The query of bytes that passed: only the checks make one.
    pub fn new(bytes: &'a [u8]) -> CheckedQuery<'a>
        requires { query_refusal bytes.now ≡ passed }
        ensures { result ≡ bytes.now }
    {
        CheckedQuery { bytes }
    }

    // Its bytes.
    pub fn bytes(&self) -> &'a [u8]
        ensures bytes { result.now ≡ self.now }
        ensures checked { query_refusal self.now ≡ passed }
    {
        self.bytes
    }

    // The sizes that its table takes over.
    pub fn sizes(&self) -> Sizes
        ensures produced { result.produced ≡ produced_count self.now }
        ensures tested { result.tested ≡ tested_count self.now }
        ensures sets { result.sets ≡ set_count self.now }
        ensures some_produced { 1 ≤ result.produced }
    {
        let bytes = self.bytes;
        let produced = query_sizes::produced(bytes) as usize;
        let tested = query_sizes::tested(bytes) as usize;
        let sets = query_sizes::sets(bytes) as usize;
        Sizes {
            produced,
            tested,
            sets,
        }
    }
}
