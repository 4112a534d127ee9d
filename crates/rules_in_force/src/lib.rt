// The dependencies in force under a choice of sets, as arrows between masks. Bit s of a choice's number says whether set s is in force. The function takes a query
// that was checked: it is no entry point.
#![tactic(auto)]

ghost use Rattle.std.specs.Prelude.{◌≡◌, ◌+◌, ◌≤◌, ◌<◌};
ghost use Rattle.theory.specs.Query.{dependency_count};
ghost use Rattle.arrayvec.specs.ArrayVec.{array_vec_len};
ghost use Rattle.arrows.specs.Arrows.{Adding};
ghost use Rattle.rules_in_force.specs.Rules.{rules_at, arrows_at, is_listed, ArrowsListed};

use arrayvec::ArrayVec;
use arrows::Arrow;
use numbers::limits::{self, MAX_ARROWS};
use query::CheckedQuery;

// Whether the dependency with that head is listed: its set is in force and, where only equals are listed, it is one.
fn listed(x: u8, head: u8, only: bool) -> bool
    ensures { result ≡ is_listed only x head }
{
    if only && head / limits::KIND_UNIT != limits::EQUAL_KIND {
        return false;
    }
    column_masks::has(x as u16, head % limits::KIND_UNIT)
}

// The arrows of dependency i behind the others, if it is listed, which its head tells: no more is read of one that is not.
fn add(query: &CheckedQuery, x: u8, only: bool, arrows: &mut ArrayVec<Arrow, MAX_ARROWS>, i: u8)
    requires { (i < dependency_count query.now) × (array_vec_len arrows.old + 2 ≤ 32) }
    ensures { Adding (arrows_at only query.now x i) arrows.old.items arrows.new.items }
{
    let bytes = query.bytes();
    let at = query::bytes::order_count(bytes) + i as u16;
    let head = query::bytes::head(bytes, at);
    if listed(x, head, only) {
        let dependency = query::dependency(bytes, i);
        let rule = dependency.rule;
        arrows::add_rule(arrows, rule);
    }
}

// The arrows of all dependencies in force, or of the equals among them, in place of those that the list had.
pub fn list(query: &CheckedQuery, x: u8, only: bool, arrows: &mut ArrayVec<Arrow, MAX_ARROWS>)
    ensures { ArrowsListed only (rules_at query.now x) arrows.new.items }
{
    arrows.clear();
    for i in 0..query_sizes::dependencies(query.bytes()) {
        add(query, x, only, arrows, i);
    }
}
