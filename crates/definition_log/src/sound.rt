// Row 8's test of a log that a caller lends, any words and any bytes: first every link that can be reached is followed and marks the record
// that it leads to (links), then the records are tried in rising order.
#![tactic(auto, unfolding(crate::specs::meaning::Sound::heads_out, crate::specs::meaning::Sound::links_out, crate::specs::meaning::Sound::texts_out, crate::specs::meaning::Sound::spans_reversed, crate::specs::meaning::Sound::path_wrong, crate::specs::meaning::Record::one_of, crate::specs::meaning::Sound::any_of, crate::specs::machine::Walk::record_wrong, crate::specs::machine::Walk::fault_by))]

ghost use Rattle.std.specs.Prelude.{◌≤◌, false, not, cond, ◌≡◌, eqb, ltb};
ghost use Rattle.definition_log.specs.meaning.Record.{one_of, has_children, has_span, has_name_span, log_count, kind_of, child_of, m_of};
ghost use Rattle.definition_log.specs.meaning.Record.{out_field, span_start, span_end, name_start, name_end, leads_out, extension_kind};
ghost use Rattle.definition_log.specs.meaning.Sound.{heads_out, links_out, text_out, texts_out};
ghost use Rattle.definition_log.specs.meaning.Sound.{spans_reversed, nonempty_path, path_wrong, wrong_count, soundness};
ghost use Rattle.definition_log.specs.meaning.SoundAnswer.{told};
ghost use Rattle.definition_log.specs.declared.answer.Refusal.TheVariants.{Log};
ghost use Rattle.definition_log.specs.meaning.Answer.{told_done, passed, sound_answer};
ghost use Rattle.definition_log.specs.machine.Walk.{record_wrong, fault_by, first_by};

use crate::answer::Refusal;
use crate::kinds::{has_children, has_name_span, has_span, is_def};
use crate::limits::{FEW_RECORDS, MOST_RECORDS};
use crate::links::{Mark, Walk, mark_at};
use crate::parts::{name_span_of, span_of};
use crate::record::{Log, child_of, kind_of, log_count, out_field};
use crate::{kinds, layout};
use paths_numbers::mir::good_path;

// The lowest record that breaks an output rule.
#[derive(Clone, Copy, Debug, PartialEq, Eq)]
pub struct Broken {
    pub record: u32,
}

impl From<Broken> for Refusal {
    ghost from_gives = { λ b e. e ≡ Log b.record };

    fn from(broken: Broken) -> Refusal {
        Refusal::Log(broken.record)
    }
}

// Row 8 as an answer: refused with the lowest record that breaks a rule.
pub fn log_refused(log: Log<'_>) -> Result<(), Refusal>
    ensures { told_done result ≡ sound_answer (soundness log.entry.words.now log.entry.bytes.now) passed }
{
    check_log(log)?;
    Ok(())
}

// Row 8's test of any words and bytes.
pub fn check_log(log: Log<'_>) -> Result<(), Broken>
    ensures { told result ≡ soundness log.entry.words.now log.entry.bytes.now }
{
    if wrong_count(log.words) {
        return Err(Broken { record: 0 });
    }
    if log_count(log.words) as usize <= FEW_RECORDS {
        return check_within::<FEW_RECORDS>(log);
    }
    check_within::<MOST_RECORDS>(log)
}

// Whether there are no words, or no whole records.
fn wrong_count(words: &[u32]) -> bool
    ensures { result ≡ wrong_count words.now }
{
    words.is_empty() || words.len() % layout::RECORD_WORDS != 0
}

// The same of a log of at most N records. It is not inlined: the arrays of both calls would be on the stack at once.
#[inline(never)]
fn check_within<const N: usize>(log: Log<'_>) -> Result<(), Broken>
    requires small { N ≤ MOST_RECORDS }
    requires room { log_count log.words.now ≤ N }
    requires whole { wrong_count log.words.now ≡ false }
    ensures { told result ≡ soundness log.entry.words.now log.entry.bytes.now }
{
    let mut walk = Walk {
        marks: [Mark::Unmet; N],
        queue: [0; N],
        met: 0,
    };
    walk.all(log.words);
    first_fault(log, &walk.marks)
}

// The lowest record at fault, by the marks.
fn first_fault(log: Log<'_>, marks: &[Mark]) -> Result<(), Broken>
    ensures { told result ≡ first_by (log_count log.entry.words.now) log.entry.words.now log.entry.bytes.now marks.now 0 }
{
    match (0..log_count(log.words)).find(|&r| at_fault(log, mark_at(marks, r), r)) {
        Some(record) => Err(Broken { record }),
        None => Ok(()),
    }
}

// Whether a record is at fault, by its mark: record 0 for its links alone, another only if it is reached.
fn at_fault(log: Log<'_>, mark: Mark, r: u32) -> bool
    ensures { result ≡ fault_by log.entry.words.now log.entry.bytes.now mark r }
{
    if r == 0 {
        return heads_out(log.words);
    }
    match mark {
        Mark::Unmet => false,
        Mark::Met => record_wrong(log, r),
        Mark::Wrong => true,
    }
}

// Whether a record breaks a rule, but for those on the links that lead to it.
fn record_wrong(log: Log<'_>, r: u32) -> bool
    ensures { result ≡ record_wrong log.entry.words.now log.entry.bytes.now r }
{
    links_out(log.words, r)
        || texts_out(log, r)
        || spans_reversed(log.words, r)
        || path_wrong(log, r)
}

// Whether one of record 0's links leads out of the log.
fn heads_out(words: &[u32]) -> bool
    ensures { result ≡ heads_out words.now }
{
    leads_out(words, 0, layout::FIRST_DEFINITION)
        || leads_out(words, 0, layout::FIRST_EXTENSION)
        || leads_out(words, 0, layout::FIRST_BINDING)
        || leads_out(words, 0, layout::FIRST_DIAGNOSTIC)
        || leads_out(words, 0, layout::FIRST_POST)
}

// Whether one of a record's links leads out of the log.
fn links_out(words: &[u32], r: u32) -> bool
    ensures { result ≡ links_out words.now r }
{
    leads_out(words, r, layout::NEXT) || links_out_child(words, r) || links_out_body(words, r)
}

// Whether its child does, or is there where its kind has no children.
fn links_out_child(words: &[u32], r: u32) -> bool
    ensures { result ≡ cond (has_children (kind_of words.now r)) (leads_out words.now (child_of words.now r))
        (not (eqb (child_of words.now r) 0)) }
{
    if has_children(kind_of(words, r)) {
        leads_out(words, r, layout::CHILD)
    } else {
        child_of(words, r) != 0
    }
}

// Whether an extension's body does.
fn links_out_body(words: &[u32], r: u32) -> bool
    ensures { result ≡ cond (eqb (kind_of words.now r) extension_kind)
        (leads_out words.now (m_of words.now r)) false }
{
    kind_of(words, r) == kinds::EXTENSION && leads_out(words, r, layout::M)
}

// Whether the link that is word i of a record leads out of the log.
fn leads_out(words: &[u32], r: u32, i: u32) -> bool
    ensures { result ≡ leads_out words.now (out_field words.now r i) }
{
    log_count(words) <= out_field(words, r, i)
}

// Whether one of a record's texts ends behind the bytes.
fn texts_out(log: Log<'_>, r: u32) -> bool
    ensures { result ≡ texts_out log.entry.words.now log.entry.bytes.now r }
{
    text_out(
        log.bytes,
        out_field(log.words, r, layout::TEXT_START),
        out_field(log.words, r, layout::TEXT_LENGTH),
    ) || text_out(
        log.bytes,
        out_field(log.words, r, layout::SECOND_START),
        out_field(log.words, r, layout::SECOND_LENGTH),
    )
}

// Whether a text ends behind the bytes.
fn text_out(bytes: &[u8], start: u32, size: u32) -> bool
    ensures { result ≡ text_out bytes.now start size }
{
    bytes.len() < (start as usize) + (size as usize)
}

// Whether one of a record's spans ends before it starts.
fn spans_reversed(words: &[u32], r: u32) -> bool
    ensures { result ≡ spans_reversed words.now r }
{
    let kind = kind_of(words, r);
    (has_span(kind) && span_of(words, r).is_reversed())
        || (has_name_span(kind) && name_span_of(words, r).is_reversed())
}

// Whether a record's path lacks the form that its kind asks for.
fn path_wrong(log: Log<'_>, r: u32) -> bool
    ensures { result ≡ path_wrong log.entry.words.now log.entry.bytes.now r }
{
    match kind_of(log.words, r) {
        kinds::VERSION | kinds::PLUGIN => !good_path(log.first_text(r)),
        kinds::BINDING => !nonempty_path(log.second_text(r)),
        kind => is_def(kind) && !nonempty_path(log.first_text(r)),
    }
}

// Whether a path has row 9's form and is not empty.
fn nonempty_path(path: &[u8]) -> bool
    ensures { result ≡ nonempty_path path.now }
{
    !path.is_empty() && good_path(path)
}
