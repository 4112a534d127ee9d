// A table whose form passed: its start states, and a state's successors and held word, read where they are.
ghost use Rattle.std.specs.Prelude.{◌≡◌, ◌<◌, List, ℕ, length};
ghost use Rattle.theory.specs.Query.{byte_at};
ghost use Rattle.theory.specs.Table.{states_in, produced_in, sets_in, start_in, row_in, word_in};
ghost use Rattle.table.specs.Form.{Formed};

use crate::sizes::{held_base, produced, sets, successors_base};
use byte_rows::{part, row};
use handles::StateNumber;
use numbers::limits;
use std::marker::Model;

// A start, a state's row and its word are read from such a table alone. A clause sees its bytes.
#[derive(Drop)]
pub struct FormedTable<'a> {
    bytes: &'a [u8],
}

impl<'a> Model for FormedTable<'a> {
    ghost Value = { List ℕ };

    ghost view = { λ table. table.bytes.now };

    ghost invariant = { λ table. Formed table.bytes.now };
}

impl<'a> FormedTable<'a> {
    // A table of bytes that have the form: the check of the form has shown it of them, or they are a table that was built or accepted.
    pub fn new(bytes: &'a [u8]) -> FormedTable<'a>
        requires { Formed bytes.now }
        ensures { result ≡ bytes.now }
    {
        FormedTable { bytes }
    }

    // Its bytes.
    pub fn bytes(&self) -> &'a [u8]
        ensures bytes { result.now ≡ self.now }
        ensures formed { Formed self.now }
    {
        self.bytes
    }

    // The start states of the produced orders.
    pub fn starts(&self) -> &'a [u8]
        ensures length { length result.now ≡ produced_in self.now }
        ensures starts { (p : ℕ) → p < produced_in self.now → byte_at result.now p ≡ start_in self.now p }
        ensures formed { Formed self.now }
    {
        let bytes = self.bytes;
        part(bytes, limits::TABLE_SIZES, produced(bytes))
    }

    // A state's successor row.
    pub fn successors(&self, state: StateNumber) -> &'a [u8]
        requires { state.0 < states_in self.now }
        ensures { (result.now ≡ row_in self.now state.0) × (length result.now ≡ sets_in self.now) }
    {
        let bytes = self.bytes;
        row(bytes, successors_base(bytes), sets(bytes), state.0 as usize)
    }

    // A state's held word: its two bytes of held bits as one, low byte first.
    pub fn held_word(&self, state: StateNumber) -> u16
        requires { state.0 < states_in self.now }
        ensures { result ≡ word_in self.now state.0 }
    {
        let bytes = self.bytes;
        let held = row(
            bytes,
            held_base(bytes),
            limits::HELD_WIDTH,
            state.0 as usize,
        );
        byte_rows::word(held[0], held[1])
    }
}
