//! Whose turn it is.

ghost use Rattle.std.specs.Prelude.{◌≡◌, ◌+◌, ◌↔◌, Bool, List, [], IsTrue, OnErr, OnOk, length};
ghost use Rattle.std.specs.List.{Contains, count_by};
ghost use Rattle.hc_agenda.specs.Turns.{GivesTurn, IsBatch, IsFirstTurn, Step, Waiting, all_of, batch_of, before_all, pushed, put_before_in, turns_of};
ghost use Rattle.hc_order.specs.declared.receiver.Receiver.{Receiver};

use hc_order::Receiver;
use std::alloc::{AllocError, Global};
use std::collections::VecDeque;
use std::marker::Model;

/// The links that wait to be looked at, the one that has waited for longest first. They have their turns in batches: a
/// link that comes during a batch waits for the next one, so that between two batches whoever looks at links hears what
/// the world has to say. A link waits here as often as it was put here: whoever owns it knows whether it waits already.
#[derive(Drop)]
pub struct Turns {
    /// All of them.
    waiting: VecDeque<Receiver>,
    /// How many of the first ones are of this batch.
    left: usize,
}

impl Model for Turns {
    ghost use Rattle.std.specs.Prelude.{◌≤◌, drop, length, take};
    ghost use Rattle.hc_agenda.specs.Turns.{Waiting};

    ghost Value = { Waiting };

    ghost view = { λ turns. record { batch = take turns.left turns.waiting.items; behind = drop turns.left turns.waiting.items } };

    ghost invariant = { λ turns. turns.left ≤ length turns.waiting.items };
}

impl Turns {
    /// None waits.
    pub fn new(alloc: Global) -> Self
        ensures { result ≡ record { batch = []; behind = [] } }
    {
        Turns {
            waiting: VecDeque::new(alloc),
            left: 0,
        }
    }

    /// Puts a link behind the others. Its turn is of a later batch.
    pub fn push(&mut self, link: Receiver) -> Result<(), AllocError>
        ensures ok { OnOk result (self.new ≡ pushed self.old link) }
        ensures err { OnErr result (self.new ≡ self.old) }
    {
        self.waiting.push_back(link)?;
        Ok(())
    }

    /// Puts a link before all others: its turn is the next one, of this batch.
    pub fn put_first(&mut self, link: Receiver) -> Result<(), AllocError>
        ensures ok { OnOk result (self.new ≡ before_all self.old link) }
        ensures err { OnErr result (self.new ≡ self.old) }
    {
        self.waiting.push_front(link)?;
        self.left += 1;
        Ok(())
    }

    /// Begins a batch: each link that waits now has its turn in it.
    pub fn begin_batch(&mut self)
        ensures { self.new ≡ batch_of self.old }
    {
        self.left = self.waiting.len();
    }

    /// The link whose turn is next in this batch, which is left there; none where the batch is over.
    pub fn first(&self) -> Option<Receiver>
        ensures { IsFirstTurn result self.now }
    {
        if self.left == 0 {
            return None;
        }
        self.waiting.front().copied()
    }

    /// The link whose turn it is; none where the batch is over.
    pub fn next(&mut self) -> Option<Receiver>
        ensures { GivesTurn result self.old self.new }
    {
        if self.left == 0 {
            return None;
        }
        self.left -= 1;
        self.waiting.pop_front()
    }

    /// Whether no link waits, of this batch or behind it.
    pub fn is_empty(&self) -> bool
        ensures { IsTrue result ↔ (length self.now.batch + length self.now.behind ≡ 0) }
    {
        self.waiting.is_empty()
    }
}

/// Each link that waits where a batch begins has its turn in it. None has more turns than it stood there, and was put before
/// all others meanwhile; and where none was, they have their turns in the order in which they waited.
pub fn a_batch_gives_each_link_its_turn()
    ensures each { (steps : List Step) (waiting after : Waiting) → IsBatch steps waiting after → (link : Receiver)
        → Contains (all_of waiting) link → Contains (turns_of steps) link }
    ensures no_more { (steps : List Step) (waiting after : Waiting) → IsBatch steps waiting after → (test : Receiver → Bool)
        → count_by test (turns_of steps) ≡ count_by test (all_of waiting) + count_by test (put_before_in steps) }
    ensures in_order { (steps : List Step) (waiting after : Waiting) → IsBatch steps waiting after
        → put_before_in steps ≡ [] → turns_of steps ≡ all_of waiting }
{}
