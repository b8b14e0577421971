// The steps of a turn of the search: its rules, what is left to try after a value, what is handed up; and the last turn, where all
// variables are played. It rests on `search_rules`, `rule_narrow`, `rule_skip`, `search_words` and `search_leaf`. Every public function is
// for `search_turns`; `Outcome` and `last_turn` are for `search_run` too.
#![tactic(auto)]

ghost use Rattle.std.specs.Prelude.{◌≡◌, true, false, cond, not, ◌&&◌, ◌≤◌, ◌<◌, eqb, length, is_err};
ghost use Rattle.mask.specs.Mask.{bit};
ghost use Rattle.game.specs.Rule.{uses};
ghost use Rattle.game.specs.Search.{handed as handedUp};
ghost use Rattle.solver_arrays.specs.Words.{Nonzero, conflict_of};
ghost use Rattle.rule_skip.specs.Skip.{LeafHolds};
ghost use Rattle.search_rules.specs.RuledTurn.{Stated, Settled};
ghost use Rattle.search_words.specs.TurnRoom.{zeroed, leaf_taken};
ghost use Rattle.search_steps.specs.TurnReply.{Blank, Stands, TellsBroken, TurnReplies, won_of, loss_of, set_of};
ghost use Rattle.search_steps.specs.TurnSteps.{left_of, narrowed_of, EntersTurn, LeavesUntried};

use mask::contains;
use rule_narrow::narrow_next;
use rule_set::RuleSet;
use rule_skip::{skippable_values, untried_after};
use search_leaf::{copy_leaf, first_broken};
use search_rules::run_rules;
use search_words::{clear_below, handed, take_leaf, zero_words};
use solver_arrays::{Arrays, Loss};

// What a turn hands up: won, with its leaf in the words; or lost with a conflict set, by its rules or after them.
#[derive(Clone, Copy)]
pub enum Outcome {
    Won,
    Lost { by_rules: bool, conflict: u32 },
}

impl Outcome {
    // Whether it is a win.
    pub fn is_won(self) -> bool
        ensures { result ≡ won_of self }
    {
        match self {
            Outcome::Won => true,
            Outcome::Lost { .. } => false,
        }
    }

    // Whether it is a loss that the rules of the turn found.
    pub fn by_rules(self) -> bool
        ensures { result ≡ loss_of self }
    {
        match self {
            Outcome::Won => false,
            Outcome::Lost { by_rules, .. } => by_rules,
        }
    }

    // The conflict set of a loss; empty for a win.
    pub fn conflict(self) -> u32
        ensures { result ≡ set_of self }
    {
        match self {
            Outcome::Won => 0,
            Outcome::Lost { conflict, .. } => conflict,
        }
    }
}

// The mask of the two variables of the first broken constraint. Below a turn with rule 1 none is broken (theory, `turn_unbroken`).
fn broken_in(arrays: &Arrays, set: RuleSet, c: usize, w: &[u16]) -> Option<u32>
    requires { (96 ≤ length w.now) }
    ensures { TellsBroken arrays.now.n arrays.now set.bits c
        w.now result }
{
    let below = c != 0;
    if below && set.uses(1) {
        return None;
    }
    first_broken(arrays, w)
}

// The conflict set of rule 2 in a lost last turn, given what its rules say. In a first turn rule 2 finds the loss, if the set has it
// (theory, `first_Finds`); below another turn it finds none (`below_finds_none`).
fn check_set(set: RuleSet, c: usize, said: Result<(), Loss>) -> u32
    ensures { result ≡ cond (eqb c 0 && uses set.bits 2) (conflict_of said) 0 }
{
    let first = c == 0;
    if first && set.uses(2) {
        match said {
            Ok(()) => 0,
            Err(loss) => loss.conflict,
        }
    } else {
        0
    }
}

// All variables are played: won with the play as leaf, or lost with the first broken constraint and the conflict set of rule 2. Where
// none is broken the rules change nothing (theory, `turn-leaf-list`), so they run only on a lost leaf.
pub fn last_turn(arrays: &Arrays, set: RuleSet, c: usize, room: &mut [u16]) -> Outcome
    requires { (128 ≤ length room.old) × Blank 128 room.old
        × Stands arrays.now.n arrays.now set.bits c arrays.now.n room.old }
    ensures { TurnReplies arrays.now.n arrays.now set.bits c arrays.now.n
        room.old room.new result }
{
    let Some(broken) = broken_in(arrays, set, c, room) else {
        copy_leaf(arrays, room);
        return Outcome::Won;
    };
    let said = run_rules(arrays, set, c, arrays.n, room);
    let checked = check_set(set, c, said);
    let by_rules = said.is_err();
    Outcome::Lost {
        by_rules,
        conflict: handed(set.uses(6), arrays.n, broken | checked),
    }
}

// What a turn goes on with after its rules: the values to try, and whether rules 4 and 5 narrowed them.
#[derive(Clone, Copy)]
pub struct Entered {
    pub left: u16,
    pub narrowed: bool,
}

// The rules of a turn with a variable left, and the domain of that variable narrowed.
pub fn enter(
    arrays: &Arrays,
    set: RuleSet,
    c: usize,
    d: usize,
    w: &mut [u16],
) -> Result<Entered, Loss>
    requires { (c ≤ d) × (d < arrays.now.n) × (96 ≤ length w.old) × Nonzero arrays.now.n w.old
        × Stated arrays.now.n arrays.now
        × Settled arrays.now.n arrays.now set.bits c d w.old }
    ensures { EntersTurn arrays.now.n arrays.now set.bits c d
        w.old w.new (is_err result) (conflict_of result) (left_of result) (narrowed_of result) }
{
    run_rules(arrays, set, c, d, w)?;
    let before = w[d];
    narrow_next(arrays, set.uses(4), set.uses(5), d, w);
    let left = w[d];
    Ok(Entered {
        left,
        narrowed: left != before,
    })
}

// Whether a loss below tries no further value: rule 6 is used and the conflict set lacks d.
pub fn jumps(set: RuleSet, d: usize, conflict: u32) -> bool
    requires { d < 32 }
    ensures { result ≡ (uses set.bits 6 && not (bit conflict d)) }
{
    set.uses(6) && !contains(conflict, d)
}

// A loss that the rules found, handed up.
pub fn lost_by_rules(set: RuleSet, d: usize, conflict: u32) -> Outcome
    requires { d ≤ 32 }
    ensures { result ≡ Outcome.Lost true (handedUp (uses set.bits 6) d conflict) }
{
    Outcome::Lost {
        by_rules: true,
        conflict: handed(set.uses(6), d, conflict),
    }
}

// A loss of the turns below handed up: the words of the turn below become zero.
pub fn lost_below(set: RuleSet, d: usize, conflict: u32, room: &mut [u16]) -> Outcome
    requires { (d ≤ 32) × (224 ≤ length room.old) }
    ensures value { result ≡ Outcome.Lost false (handedUp (uses set.bits 6) d conflict) }
    ensures room_after { room.new ≡ zeroed 128 224 room.old }
{
    clear_below(room);
    Outcome::Lost {
        by_rules: false,
        conflict: handed(set.uses(6), d, conflict),
    }
}

// The same after a leaf was taken up: the leaf becomes zero too.
pub fn lost_after(set: RuleSet, d: usize, conflict: u32, room: &mut [u16]) -> Outcome
    requires { (d ≤ 32) × (224 ≤ length room.old) }
    ensures value { result ≡ Outcome.Lost false (handedUp (uses set.bits 6) d conflict) }
    ensures room_after { room.new ≡ zeroed 128 224 (zeroed 96 128 room.old) }
{
    zero_words(96, 128, room);
    lost_below(set, d, conflict, room)
}

// A win handed up, whose leaf stands in the words.
pub fn won_here(room: &mut [u16]) -> Outcome
    requires { 224 ≤ length room.old }
    ensures value { result ≡ Outcome.Won }
    ensures room_after { room.new ≡ zeroed 128 224 room.old }
{
    clear_below(room);
    Outcome::Won
}

// The win of the turn below handed up.
pub fn won_below(room: &mut [u16]) -> Outcome
    requires { 256 ≤ length room.old }
    ensures value { result ≡ Outcome.Won }
    ensures room_after { room.new ≡ zeroed 128 224 (leaf_taken room.old) }
{
    take_leaf(room);
    won_here(room)
}

// What is left to try of the mask `left` after value a gave the leaf in the words.
pub fn untried_next(arrays: &Arrays, set: RuleSet, d: usize, left: u16, a: usize, w: &[u16]) -> u16
    requires { (d < arrays.now.n) × (a < 16) × (128 ≤ length w.now)
        × LeafHolds arrays.now.n arrays.now w.now }
    ensures { LeavesUntried arrays.now.n arrays.now set.bits d
        left a w.now result }
{
    let m = untried_after(left, a, 0);
    if m == 0 {
        return 0;
    }
    if set.uses(7) {
        untried_after(left, a, skippable_values(arrays, d, m, w))
    } else {
        m
    }
}
