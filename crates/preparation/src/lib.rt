// What the closure test is given for the rules in force under a choice of sets: arrows between masks that stand for them, the columns that are settled from the start, and the classes
// of columns that are alike.
#![tactic(auto)]

mod masks;

ghost use Rattle.closure.specs.RuleMasks.{Prepared};
ghost use Rattle.rules_in_force.specs.Rules.{rules_at};

use closure::PreparedRules;
use handles::SetChoice;
use numbers::limits::MAX_ARROWS;
use query::CheckedQuery;

// What the test is given for the rules in force under choice x, in place of what it was given before.
pub fn prepare(query: &CheckedQuery, x: SetChoice, rules: &mut PreparedRules<MAX_ARROWS>)
    ensures { Prepared (rules_at query.now x.0) rules.new.arrows.items rules.new.start rules.new.classes }
{
    rules.classes = masks::classes(query, x.0, &mut rules.arrows);
    rules_in_force::list(query, x.0, false, &mut rules.arrows);
    rules.start = closure::close(&rules.arrows, 0);
}
