// The interesting orders that are held from a produced order, as a word, bit i for order i.
ghost use Rattle.std.specs.Prelude.{◌≡◌, List, ◌+◌, ◌*◌, ◌<◌};
ghost use Rattle.theory.specs.Orders.{Rule};
ghost use Rattle.theory.specs.Query.{produced_count};
ghost use Rattle.theory.specs.Table.{bit, number};
ghost use Rattle.closure.specs.RuleMasks.{Prepared};
ghost use Rattle.choices.specs.Words.{held_bits};

use closure::PreparedRules;
use handles::OrderHandle;
use numbers::limits::MAX_ARROWS;
use query::CheckedQuery;
use settled::test;

// The word with one bit more, below the others.
fn with_bit(word: u16, b: bool) -> u16
    requires { word < 32768 }
    ensures { result ≡ bit b + 2 * word }
{
    u16::from(b) + 2 * word
}

// The held bits of produced order p, from the last order down.
pub fn word(query: &CheckedQuery, rules: &PreparedRules<MAX_ARROWS>, p: u8) -> u16
    requires { ((rs : List Rule) × Prepared rs rules.now.arrows.items rules.now.start rules.now.classes) × (p < produced_count query.now) }
    ensures { (rs : List Rule) → Prepared rs rules.now.arrows.items rules.now.start rules.now.classes → result ≡ number (held_bits query.now rs p) }
{
    let bytes = query.bytes();
    let produced = query::order(bytes, OrderHandle(p));
    let mut word: u16 = 0;
    for i in (0..query_sizes::produced(bytes) + query_sizes::tested(bytes)).rev() {
        let order = query::order(bytes, OrderHandle(i));
        word = with_bit(word, test::held(rules, produced, order));
    }
    word
}
