// The walk of row 8's test: every link that can be reached is followed, and marks the record that it leads to.
#![tactic(auto, unfolding(crate::specs::meaning::Record::one_of, crate::specs::machine::Walk::place_of, crate::specs::machine::Walk::stored, crate::specs::machine::Walk::first_mark))]

ghost use Rattle.std.specs.Prelude.{◌<◌, cond, ◌≡◌, eqb, get_or};
ghost use Rattle.definition_log.specs.meaning.Record.{one_of, kind_of, m_of, extension_kind};
ghost use Rattle.definition_log.specs.meaning.Sound.{below, kinds_in, link_to, links_of, head_links};
ghost use Rattle.definition_log.specs.machine.Walk.{chains, place_of, place_told, link_of, first_mark, stored, held, follow_all, all_marks};
ghost use Rattle.definition_log.specs.declared.links.Mark.TheVariants.{Unmet};

use crate::kinds::is_def;
use crate::lists::one_of;
use crate::record::{child_of, kind_of, leads_to, next_of, out_field};
use crate::{kinds, layout};

// A record's mark: no link led to it, one did and its kind fits there, or it is at fault.
#[derive(Clone, Copy, Debug, PartialEq, Eq)]
#[repr(u8)]
pub(crate) enum Mark {
    Unmet,
    Met,
    Wrong,
}

// The chain that leads to a record.
#[derive(Clone, Copy, Debug, PartialEq, Eq)]
pub(crate) enum Chain {
    Definitions,
    Extensions,
    Bindings,
    Diagnostics,
    Labels,
    Values,
    Cells,
    References,
    Nowhere,
}

// How many there are.
const CHAINS: u32 = 9;

impl From<Chain> for u32 {
    ghost from_gives = { λ chain number. (number < chains) × (place_of number ≡ place_told chain) };

    // kept: the queue has a record and its chain in one word, of fixed memory on the stack. A struct of both takes 8 bytes and not 4
    // (size_of): 512 KB for 65,536 records and not 256 KB.
    fn from(chain: Chain) -> u32 {
        chain as u32
    }
}

impl From<u32> for Chain {
    ghost from_gives = { λ number chain. place_told chain ≡ place_of number };

    fn from(number: u32) -> Chain {
        match number {
            0 => Chain::Definitions,
            1 => Chain::Extensions,
            2 => Chain::Bindings,
            3 => Chain::Diagnostics,
            4 => Chain::Labels,
            5 => Chain::Values,
            6 => Chain::Cells,
            7 => Chain::References,
            _ => Chain::Nowhere,
        }
    }
}

impl Chain {
    // The chain below a record of a kind.
    fn below(kind: u32) -> Chain
        ensures { place_told result ≡ below kind }
    {
        match kind {
            kinds::NODE => Chain::Labels,
            kinds::PROPERTY => Chain::Values,
            kinds::CELL_LIST => Chain::Cells,
            kinds::EXTENSION => Chain::References,
            _ => Chain::Nowhere,
        }
    }

    // Whether a kind fits there.
    fn has(self, kind: u32) -> bool
        ensures { result ≡ one_of kind (kinds_in (place_told self)) }
    {
        match self {
            Chain::Definitions => is_def(kind),
            Chain::Extensions => kind == kinds::EXTENSION,
            Chain::Bindings => kind == kinds::BINDING,
            Chain::Diagnostics => kind == kinds::DIAGNOSTIC,
            Chain::Labels => kind == kinds::LABEL,
            Chain::Values => one_of(
                kind,
                &[
                    kinds::STRING,
                    kinds::CELL_LIST,
                    kinds::BYTESTRING,
                    kinds::REFERENCE,
                ],
            ),
            Chain::Cells => one_of(kind, &[kinds::NUMBER, kinds::REFERENCE]),
            Chain::References => kind == kinds::REFERENCE,
            Chain::Nowhere => false,
        }
    }
}

// The records' marks, and the records that were met, in order, each in one word with its chain.
#[derive(Drop)]
pub(crate) struct Walk<const N: usize> {
    pub(crate) marks: [Mark; N],
    pub(crate) queue: [u32; N],
    pub(crate) met: usize,
}

impl<const N: usize> Walk<N> {
    // All links followed: those of record 0, then those of each record that was met, in order.
    pub(crate) fn all(&mut self, words: &[u32])
        requires { self.old.met ≡ 0 }
        ensures { self.new.marks ≡ all_marks words.now self.old.marks self.old.queue }
    {
        self.heads(words);
        // kept: an index, for the queue grows while it is walked.
        for i in 0..N {
            if self.met <= i {
                return;
            }
            self.record(words, self.queue[i]);
        }
    }

    // Record 0's links followed.
    fn heads(&mut self, words: &[u32])
        ensures { held self.new.marks self.new.queue self.new.met ≡ follow_all words.now (head_links words.now)
            (held self.old.marks self.old.queue self.old.met) }
    {
        self.follow(
            words,
            out_field(words, 0, layout::FIRST_DEFINITION),
            Chain::Definitions,
        );
        self.follow(
            words,
            out_field(words, 0, layout::FIRST_EXTENSION),
            Chain::Extensions,
        );
        self.follow(
            words,
            out_field(words, 0, layout::FIRST_BINDING),
            Chain::Bindings,
        );
        self.follow(
            words,
            out_field(words, 0, layout::FIRST_DIAGNOSTIC),
            Chain::Diagnostics,
        );
        self.follow(
            words,
            out_field(words, 0, layout::FIRST_POST),
            Chain::Diagnostics,
        );
    }

    // The links of a record followed; code has the record and the chain that it was met in.
    fn record(&mut self, words: &[u32], code: u32)
        ensures { held self.new.marks self.new.queue self.new.met ≡ follow_all words.now
            (links_of words.now (link_of code)) (held self.old.marks self.old.queue self.old.met) }
    {
        let r = code / CHAINS;
        self.follow(words, next_of(words, r), Chain::from(code % CHAINS));
        self.follow(words, child_of(words, r), Chain::below(kind_of(words, r)));
        self.follow(words, body_link(words, r), Chain::Definitions);
    }

    // A link followed, if it leads to a record: the record is marked, and put in the queue if it was not met before.
    fn follow(&mut self, words: &[u32], r: u32, chain: Chain)
        ensures { held self.new.marks self.new.queue self.new.met ≡ follow_all words.now
            (link_to words.now r (place_told chain)) (held self.old.marks self.old.queue self.old.met) }
    {
        if !leads_to(words, r) {
            return;
        }
        if mark_at(&self.marks, r) != Mark::Unmet {
            set_mark(&mut self.marks, r, Mark::Wrong);
            return;
        }
        set_mark(&mut self.marks, r, first_mark(words, r, chain));
        if self.met < N {
            self.queue[self.met] = r * CHAINS + u32::from(chain);
            self.met += 1;
        }
    }
}

// A record's mark.
pub(crate) fn mark_at(marks: &[Mark], r: u32) -> Mark
    ensures { result ≡ get_or marks.now r Unmet }
{
    marks.get(r as usize).copied().unwrap_or(Mark::Unmet)
}

// A record's mark set.
fn set_mark(marks: &mut [Mark], r: u32, m: Mark)
    ensures { marks.new ≡ stored marks.old r m }
{
    let at = r as usize;
    if at < marks.len() {
        marks[at] = m;
    }
}

// The mark of a record that a link leads to first.
fn first_mark(words: &[u32], r: u32, chain: Chain) -> Mark
    ensures { result ≡ first_mark words.now (record { to = r; place = place_told chain }) }
{
    if chain.has(kind_of(words, r)) {
        Mark::Met
    } else {
        Mark::Wrong
    }
}

// An extension's link to its body, 0 in other kinds.
fn body_link(words: &[u32], r: u32) -> u32
    ensures { result ≡ cond (eqb (kind_of words.now r) extension_kind) (m_of words.now r) 0 }
{
    if kind_of(words, r) == kinds::EXTENSION {
        out_field(words, r, layout::M)
    } else {
        0
    }
}
