//! Two counters as a server of parts: a legal history, its state, and two acts that commute.

ghost use Rattle.std.specs.Prelude.{◌≡◌, ℕ, List, [], ◌∷◌, ◌++◌, length, IfOk, OnErr};
ghost use Rattle.histories.specs.Core.{reply, after};
ghost use Rattle.histories.specs.History.{entry, state, Legal};
ghost use Rattle.test_base.specs.Counters.{test_counters, example, opening_counters};

use crate::bump::Bump;
use histories::{Entry, Served, acts_commute};
use memory::NoMemory;
use std::alloc::Global;
use std::marker::Model;

/// The server of two counters.
pub struct Counters;

impl Served for Counters {
    ghost use Rattle.test_base.specs.Counters.{test_counters, counters_lawful};

    type Part = u64;

    type Act = Bump;

    type Reply = u64;

    ghost core = { test_counters };

    ghost lawful = { counters_lawful };
}

/// The example is legal, and leaves 3 and 2.
pub fn example_is_legal()
    ensures legal { Legal test_counters opening_counters example }
    ensures leaves { state test_counters opening_counters example ≡ 3 ∷ 2 ∷ [] }
{}

/// The left and the right counter may be added to in either order.
pub fn left_and_right_commute()
    ensures { (xs : List ℕ) (k m : ℕ) → length xs ≡ 2 → after test_counters (after test_counters xs k Bump.Left) m Bump.Right ≡ after test_counters (after test_counters xs m Bump.Right) k Bump.Left }
{
    acts_commute::<Counters>();
}

/// Two counters and the history that made them. Contracts see the history.
#[derive(Drop)]
pub struct Pair {
    left: u64,
    right: u64,
    log: Vec<Entry<Bump, u64>>,
}

impl Model for Pair {
    ghost use Rattle.std.specs.Prelude.{◌≡◌, ℕ, List, [], ◌∷◌};
    ghost use Rattle.histories.specs.declared.entry.Entry.{Entry};
    ghost use Rattle.histories.specs.History.{state, Legal};
    ghost use Rattle.test_base.specs.declared.bump.Bump.{Bump};
    ghost use Rattle.test_base.specs.Counters.{test_counters, opening_counters};

    ghost Value = { List (Entry Bump ℕ) };

    ghost view = { λ p. p.log.items };

    ghost invariant = { λ p. Legal test_counters opening_counters p.log.items × (state test_counters opening_counters p.log.items ≡ p.left ∷ p.right ∷ []) };
}

// The step, on the two counters that it is lent: what the act answers any session, and what it leaves.
#[tactic(auto, unfolding(histories::specs::Core::after))]
fn step(left: &mut u64, right: &mut u64, act: Bump) -> u64
    ensures answers { (k : ℕ) → reply test_counters (left.old ∷ right.old ∷ []) k act ≡ Some result }
    ensures leaves { (k : ℕ) → after test_counters (left.old ∷ right.old ∷ []) k act ≡ left.new ∷ right.new ∷ [] }
{
    match act {
        Bump::Left => {
            *left = left.wrapping_add(1);
            *left
        }
        Bump::Right => {
            *right = right.wrapping_add(1);
            *right
        }
        Bump::Both => {
            *left = left.wrapping_add(1);
            *right = right.wrapping_add(1);
            *left
        }
    }
}

impl Pair {
    /// Two counters at 0 with an empty history.
    pub fn new(alloc: Global) -> Pair
        ensures { result ≡ [] }
    {
        Pair {
            left: 0,
            right: 0,
            log: Vec::new(alloc),
        }
    }

    /// Makes an act of a session, and answers the first counter that it changed.
    pub fn run(&mut self, session: u32, act: Bump) -> Result<u64, NoMemory>
        ensures ok { IfOk result (λ r. self.new ≡ self.old ++ entry session act r ∷ []) }
        ensures unchanged { OnErr result (self.new ≡ self.old) }
        ensures legal { Legal test_counters opening_counters self.new }
    {
        self.log.reserve(1)?;
        let reply = step(&mut self.left, &mut self.right, act);
        self.log.push_reserved(Entry {
            session,
            act,
            reply,
        });
        Ok(reply)
    }

    /// Both counters: the state of the history.
    pub fn both(&self) -> (u64, u64)
        ensures { state test_counters opening_counters self.now ≡ result.0 ∷ result.1 ∷ [] }
    {
        (self.left, self.right)
    }
}
