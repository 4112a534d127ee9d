// Two tables that can be compared.
ghost use Rattle.std.specs.Prelude.{◌≡◌};
ghost use Rattle.joint_states.specs.JointStates.{Tables, Comparable};

use std::marker::Model;
use table::FormedTable;

// Joint states are those of two such tables alone: both pass the table check, and their sizes are the same. A clause sees the bytes of both.
#[derive(Drop)]
pub struct TwoTables<'a> {
    ours: FormedTable<'a>,
    theirs: FormedTable<'a>,
}

impl<'a> Model for TwoTables<'a> {
    ghost Value = { Tables };

    ghost view = { λ tables. record { ours = tables.ours; theirs = tables.theirs } };

    ghost invariant = { λ tables. Comparable tables.ours tables.theirs };
}

impl<'a> TwoTables<'a> {
    // The two tables of bytes that can be compared.
    pub fn new(ours: &'a [u8], theirs: &'a [u8]) -> TwoTables<'a>
        requires { Comparable ours.now theirs.now }
        ensures ours { result.ours ≡ ours.now }
        ensures theirs { result.theirs ≡ theirs.now }
    {
        TwoTables {
            ours: FormedTable::new(ours),
            theirs: FormedTable::new(theirs),
        }
    }

    // The one, and the other.
    pub fn ours(&self) -> &FormedTable<'a>
        ensures table { result.now ≡ self.now.ours }
        ensures comparable { Comparable self.now.ours self.now.theirs }
    {
        &self.ours
    }

    pub fn theirs(&self) -> &FormedTable<'a>
        ensures table { result.now ≡ self.now.theirs }
        ensures comparable { Comparable self.now.ours self.now.theirs }
    {
        &self.theirs
    }
}
