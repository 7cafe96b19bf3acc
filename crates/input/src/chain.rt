// The records of a chain of an input, by their numbers.
ghost use Rattle.std.specs.Prelude.{◌≡◌, ⊤};
ghost use Rattle.std.specs.Iterator.{YieldsFirst, item_count};
ghost use Rattle.input.specs.meaning.Input.{child_at, second_at};
ghost use Rattle.input.specs.machine.ChainLeft.{chain_left};
ghost use Rattle.input.specs.machine.Linked.{At};

use crate::linked::{Chain, Input, Record};
use crate::record::{child_at, next_at, second_at};

impl<'a> Input<'a> {
    // The records of a chain from its first on.
    pub fn chain(self, first: u32) -> Chain<'a>
        requires at { At self.words.now first }
        ensures input { result.input ≡ self.entry }
        ensures next { result.next ≡ first }
    {
        Chain {
            input: self,
            next: first,
        }
    }
}

impl<'a> Record<'a> {
    // The chain of its children.
    pub fn parts(self) -> Chain<'a>
        ensures input { result.input ≡ self.entry.input }
        ensures next { result.next ≡ child_at self.entry.input.words.now self.entry.number }
    {
        Chain {
            input: self.input,
            next: child_at(self.input.words, self.number),
        }
    }

    // The chain that its W leads to.
    pub fn contents(self) -> Chain<'a>
        ensures input { result.input ≡ self.entry.input }
        ensures next { result.next ≡ second_at self.entry.input.words.now self.entry.number }
    {
        Chain {
            input: self.input,
            next: second_at(self.input.words, self.number),
        }
    }
}

impl Iterator for Chain<'_> {
    type Item = u32;

    ghost can_next = { λ _. ⊤ };

    ghost next_gives = { YieldsFirst chain_left };

    ghost remaining = { item_count chain_left };

    fn next(&mut self) -> Option<u32> {
        let r = self.next;
        if r == 0 {
            return None;
        }
        self.next = next_at(self.input.words, r);
        Some(r)
    }
}
