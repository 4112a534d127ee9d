// Whether two tables answer alike: what the two states of each joint state that is reached hold. Nothing is known of a query. Every function requires what its callers
// have shown: none is an entry point.
#![tactic(auto)]

ghost use Rattle.std.specs.Prelude.{◌≡◌, ◌+◌, ◌*◌, ◌<◌, length};
ghost use Rattle.theory.specs.Tests.{Says};
ghost use Rattle.theory.specs.Machine.{SameAnswers};
ghost use Rattle.theory.specs.Limits.{max_states, max_joint_states};
ghost use Rattle.theory.specs.Scratch.{joint_states_length};
ghost use Rattle.theory.specs.Table.{states_in, sizes_in, held_orders, machine_in};
ghost use Rattle.joint_states.specs.JointStates.{JointWalking};
ghost use Rattle.comparison.specs.Alike.{AlikeFrom};

use handles::StateNumber;
use joint_states::TwoTables;
use numbers::limits::MAX_STATES;

// Whether two states hold the same orders, one of each table.
fn same_held(tables: &TwoTables, x: StateNumber, y: StateNumber) -> bool
    requires { (x.0 < states_in tables.now.ours) × (y.0 < states_in tables.now.theirs) }
    ensures { Says (held_orders tables.now.ours x.0 ≡ held_orders tables.now.theirs y.0) result }
{
    tables.ours().held_word(x) == tables.theirs().held_word(y)
}

// Whether the two states of joint state i hold the same, if it is in the set.
fn alike(tables: &TwoTables, reached: &[u8], i: usize) -> bool
    requires { JointWalking tables.now.ours tables.now.theirs reached.now × (i < max_joint_states) }
    ensures { Says (AlikeFrom tables.now.ours tables.now.theirs reached.now i (i + 1)) result }
{
    let ours = StateNumber((i / MAX_STATES) as u8);
    let theirs = StateNumber((i % MAX_STATES) as u8);
    !bit_sets::has(reached, i) || same_held(tables, ours, theirs)
}

// The eight joint states of a byte.
fn alike_byte(tables: &TwoTables, reached: &[u8], k: usize) -> bool
    requires { JointWalking tables.now.ours tables.now.theirs reached.now × (k < joint_states_length) }
    ensures { Says (AlikeFrom tables.now.ours tables.now.theirs reached.now (8 * k) (8 * k + 8)) result }
{
    if reached[k] == 0 {
        return true;
    }
    for j in 0..8 {
        if !alike(tables, reached, 8 * k + j) {
            return false;
        }
    }
    true
}

// All joint states of the set.
fn all_alike(tables: &TwoTables, reached: &[u8]) -> bool
    requires { JointWalking tables.now.ours tables.now.theirs reached.now }
    ensures { Says (AlikeFrom tables.now.ours tables.now.theirs reached.now 0 (max_states * states_in tables.now.ours)) result }
{
    let n = MAX_STATES / 8 * table::states(tables.ours().bytes());
    for k in 0..n {
        if !alike_byte(tables, reached, k) {
            return false;
        }
    }
    true
}

// Whether the two tables hold the same orders from every start and through every run of sets. The joint states are held in the memory that is lent for them, whatever it has.
pub fn same_answers(tables: &TwoTables, reached: &mut [u8]) -> bool
    requires { length reached.old ≡ joint_states_length }
    ensures { Says (SameAnswers (sizes_in tables.now.ours) (machine_in tables.now.ours) (machine_in tables.now.theirs)) result × (length reached.new ≡ length reached.old) }
{
    joint_states::reach(tables, reached);
    all_alike(tables, reached)
}
