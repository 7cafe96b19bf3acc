// The records of a chain, by their numbers.
ghost use Rattle.std.specs.Prelude.{◌≡◌, ⊤, MatchOption};
ghost use Rattle.std.specs.Iterator.{YieldsFirst, item_count};
ghost use Rattle.definition_log.specs.meaning.Record.{log_count};
ghost use Rattle.definition_log.specs.meaning.ReadBack.{chain_from, chain_of};
ghost use Rattle.definition_log.specs.machine.ChainLeft.{chain_left, walk_left, Stopped, Stepped};

use crate::record::{leads_to, log_count, next_of};

// Where a walk along a chain stands: its next record, and how many there may be, since links may lead round.
#[derive(Clone, Copy, Debug, PartialEq, Eq)]
pub struct Walk {
    pub next: u32,
    pub left: u32,
}

impl Walk {
    // A whole chain from its first record on.
    pub fn new(words: &[u32], first: u32) -> Walk
        ensures { result ≡ record { next = first; left = log_count words.now } }
    {
        Walk {
            next: first,
            left: log_count(words),
        }
    }

    // The next record, by the words as they are now: they may change between two steps.
    pub fn step(&mut self, words: &[u32]) -> Option<u32>
        ensures { MatchOption result (Stopped words.now self.old self.new) (Stepped words.now self.old self.new) }
    {
        if self.left == 0 {
            return None;
        }
        let r = self.next;
        if !leads_to(words, r) {
            return None;
        }
        self.next = next_of(words, r);
        self.left -= 1;
        Some(r)
    }
}

// A walk along a chain of a log that does not change meanwhile.
#[derive(Clone, Copy)]
pub struct ChainIter<'a> {
    words: &'a [u32],
    walk: Walk,
}

// The records of a chain from its first on.
pub fn chain(words: &[u32], first: u32) -> ChainIter<'_>
    ensures { chain_left result ≡ chain_of words.now first }
{
    ChainIter {
        words,
        walk: Walk::new(words, first),
    }
}

// The same, but for at most so many records.
pub fn chain_of_most(words: &[u32], first: u32, most: u32) -> ChainIter<'_>
    ensures { chain_left result ≡ chain_from most words.now first }
{
    ChainIter {
        words,
        walk: Walk {
            next: first,
            left: most,
        },
    }
}

impl Iterator for ChainIter<'_> {
    type Item = u32;

    ghost can_next = { λ _. ⊤ };

    ghost next_gives = { YieldsFirst chain_left };

    ghost remaining = { item_count chain_left };

    fn next(&mut self) -> Option<u32> {
        self.walk.step(self.words)
    }
}
