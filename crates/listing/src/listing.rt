// The listing of a log, or the line of a refusal, put on a page.
ghost use Rattle.definition_log.specs.meaning.Answer.{told};
ghost use Rattle.definition_log.specs.meaning.ReadBack.{read_log};
ghost use Rattle.listing.specs.meaning.Listing.{listing};
ghost use Rattle.listing.specs.machine.Page.{Puts, answer_text};
ghost use Rattle.listing.specs.machine.Chains.{RecordLines, chain_lines};

use crate::lines::{put_binding, put_definition, put_diagnostic, put_refusal};
use crate::page::Page;
use definition_log::answer::Refusal;
use definition_log::chain::chain;
use definition_log::layout;
use definition_log::record::{Log, out_field};

// Puts what is printed for lowering's answer and the log that it left on a page.
pub fn list_answer(answer: Result<u32, Refusal>, log: Log<'_>, page: &mut Page)
    ensures { Puts (answer_text (told answer).number (told answer).returned (read_log log.entry.words.now log.entry.bytes.now))
        page.old page.new }
{
    match answer {
        Ok(_) => write_listing(log, page),
        Err(refusal) => put_refusal(refusal, page),
    }
}

// The same for a log.
fn write_listing(log: Log<'_>, page: &mut Page)
    ensures { Puts (listing (read_log log.entry.words.now log.entry.bytes.now)) page.old page.new }
{
    put_chain(log, put_definition, layout::FIRST_DEFINITION, page);
    put_chain(log, put_binding, layout::FIRST_BINDING, page);
    put_chain(log, put_diagnostic, layout::FIRST_DIAGNOSTIC, page);
    put_chain(log, put_diagnostic, layout::FIRST_POST, page);
    page.put_text(b".\n");
}

// The chain whose first record stands at a place of record 0; `put` puts the lines of one of its records.
fn put_chain<F: Fn(Log<'_>, u32, &mut Page)>(log: Log<'_>, put: F, place: u32, page: &mut Page)
    ghost lines: { RecordLines }
    requires callable { F.IsAlwaysCallable put }
    requires each { (l : _) (r : _) (p : _) (d : _) (u : _) → F.post put l r p d u
        → Puts (lines l.words.now l.bytes.now r) p.now u.now }
    ensures { Puts (chain_lines lines place log.entry.words.now log.entry.bytes.now) page.old page.new }
{
    for r in chain(log.words, out_field(log.words, 0, place)) {
        put(log, r, page);
    }
}
