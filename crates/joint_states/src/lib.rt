// A joint state is a state of one table with a state of another. Those of two tables that are reached: those of the starts, and what taking each set in both states leads to, until nothing is added.
// Nothing is known of a query. Every function requires what its callers have shown: none is an entry point.
#![tactic(auto)]

ghost use Rattle.std.specs.Prelude.{◌≡◌, true, false, [], ◌∷◌, map, ◌+◌, ◌*◌, ◌<◌, length};
ghost use Rattle.theory.specs.Tests.{up_from};
ghost use Rattle.theory.specs.Limits.{max_states, max_joint_states};
ghost use Rattle.theory.specs.Scratch.{joint_states_length};
ghost use Rattle.theory.specs.Table.{states_in, produced_in};
ghost use Rattle.bit_sets.specs.BitSets.{in_bits};
ghost use Rattle.joint_states.specs.JointStates.{joint_number, Comparable, start_joint_state, next_joint_states, JointWalking, Added, JointVisited, JointClosed, AllTogether};

use handles::StateNumber;
use numbers::limits::MAX_STATES;
pub use tables::TwoTables;

mod tables;

// The number of a joint state.
fn joint_state(x: u8, y: u8) -> usize
    ensures { result ≡ joint_number x y }
{
    MAX_STATES * x as usize + y as usize
}

// Put a joint state into the set; whether it was not there and its number is below the bound.
fn add(reached: &mut [u8], i: usize, bound: usize) -> bool
    requires { (length reached.old ≡ joint_states_length) × (i < max_joint_states) }
    ensures { Added bound (i ∷ []) reached.old reached.new result }
{
    if bit_sets::has(reached, i) {
        return false;
    }
    bit_sets::add(reached, i);
    i < bound
}

// Put the joint state of each produced order's starts into the set.
fn add_starts(tables: &TwoTables, reached: &mut [u8])
    requires { length reached.old ≡ joint_states_length }
    ensures comparable { Comparable tables.now.ours tables.now.theirs }
    ensures added { Added 0 (map (start_joint_state tables.now.ours tables.now.theirs) (up_from 0 (produced_in tables.now.ours))) reached.old reached.new false }
{
    let ours = tables.ours().starts();
    let theirs = tables.theirs().starts();
    for p in 0..ours.len() {
        bit_sets::add(reached, joint_state(ours[p], theirs[p]));
    }
}

// What taking each set leads to from joint state i; whether a joint state with a smaller number, whose turn is over, was added.
fn visit(tables: &TwoTables, reached: &mut [u8], i: usize) -> bool
    requires { JointWalking tables.now.ours tables.now.theirs reached.old × (in_bits reached.old i ≡ true) × (i < max_joint_states) }
    ensures { Added i (next_joint_states tables.now.ours tables.now.theirs i) reached.old reached.new result }
{
    let ours = tables
        .ours()
        .successors(StateNumber((i / MAX_STATES) as u8));
    let theirs = tables
        .theirs()
        .successors(StateNumber((i % MAX_STATES) as u8));
    let mut behind = false;
    for s in 0..ours.len() {
        behind |= add(reached, joint_state(ours[s], theirs[s]), i);
    }
    behind
}

// Joint state i in its turn: it is visited if it is in the set.
fn turn(tables: &TwoTables, reached: &mut [u8], i: usize) -> bool
    requires { JointWalking tables.now.ours tables.now.theirs reached.old × (i < max_joint_states) }
    ensures { JointVisited tables.now.ours tables.now.theirs i (i + 1) reached.old reached.new result }
{
    bit_sets::has(reached, i) && visit(tables, reached, i)
}

// The eight joint states of a byte in their turn; most bytes have none.
fn turn_byte(tables: &TwoTables, reached: &mut [u8], k: usize) -> bool
    requires { JointWalking tables.now.ours tables.now.theirs reached.old × (k < joint_states_length) }
    ensures { JointVisited tables.now.ours tables.now.theirs (8 * k) (8 * k + 8) reached.old reached.new result }
{
    if reached[k] == 0 {
        return false;
    }
    let mut behind = false;
    for j in 0..8 {
        behind |= turn(tables, reached, 8 * k + j);
    }
    behind
}

// Each joint state in its turn, also those that are added on the way.
fn pass(tables: &TwoTables, reached: &mut [u8]) -> bool
    requires { JointWalking tables.now.ours tables.now.theirs reached.old }
    ensures { JointVisited tables.now.ours tables.now.theirs 0 (max_states * states_in tables.now.ours) reached.old reached.new result }
{
    let n = MAX_STATES / 8 * table::states(tables.ours().bytes());
    let mut behind = false;
    for k in 0..n {
        behind |= turn_byte(tables, reached, k);
    }
    behind
}

// Passes are repeated until one adds no joint state whose turn was over.
fn close(tables: &TwoTables, reached: &mut [u8])
    requires { JointWalking tables.now.ours tables.now.theirs reached.old }
    ensures { JointClosed tables.now.ours tables.now.theirs reached.old reached.new }
{
    while pass(tables, reached) {}
}

// Exactly the joint states that are reached, whatever lies in the memory.
pub fn reach(tables: &TwoTables, reached: &mut [u8])
    requires { length reached.old ≡ joint_states_length }
    ensures { AllTogether tables.now.ours tables.now.theirs reached.new }
{
    byte_rows::clear(reached);
    add_starts(tables, reached);
    close(tables, reached);
}
