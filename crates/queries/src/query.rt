// The queries of any log that a caller lends, by rows 8 to 10 of 01's table.
ghost use Rattle.std.specs.Prelude.{◌≡◌, length};
ghost use Rattle.paths_numbers.specs.meaning.Path.{good_path};
ghost use Rattle.queries.specs.meaning.Query.{good_answer, count_answer, query_answer, query_out, live_answers, history_answers};
ghost use Rattle.queries.specs.meaning.Query.{contains_answer, told_found, refusal};
ghost use Rattle.definition_log.specs.meaning.Answer.{told, told_done, passed};

use crate::history::history_list;
use crate::live::live_list;
use crate::mir::contains_node_in;
use definition_log::answer::Refusal;
use definition_log::layout;
use definition_log::record::{Log, out_field};
use definition_log::sound::log_refused;
use paths_numbers::mir::good_path;

// The live definitions under a base, latest first, by their record numbers.
pub fn iter_live_defs_under(log: Log<'_>, base: &[u8], list: &mut [u32]) -> Result<u32, Refusal>
    ensures result_value { told result ≡ query_answer log.entry.words.now log.entry.bytes.now base.now (length list.old)
        (live_answers log.entry.words.now log.entry.bytes.now base.now) }
    ensures list_after { list.new ≡ query_out log.entry.words.now log.entry.bytes.now base.now list.old
        (live_answers log.entry.words.now log.entry.bytes.now base.now) }
{
    refused(log, base)?;
    let first = out_field(log.words, 0, layout::FIRST_DEFINITION);
    let count = live_list(log, first, base, list);
    list_answer(list.len(), count)
}

// The history of a path, earliest first, by record numbers.
pub fn history(log: Log<'_>, path: &[u8], list: &mut [u32]) -> Result<u32, Refusal>
    ensures result_value { told result ≡ query_answer log.entry.words.now log.entry.bytes.now path.now (length list.old)
        (history_answers log.entry.words.now log.entry.bytes.now path.now) }
    ensures list_after { list.new ≡ query_out log.entry.words.now log.entry.bytes.now path.now list.old
        (history_answers log.entry.words.now log.entry.bytes.now path.now) }
{
    refused(log, path)?;
    let first = out_field(log.words, 0, layout::FIRST_DEFINITION);
    let count = history_list(log, first, path, list);
    list_answer(list.len(), count)
}

// Row 10: how many answers there are, if a list with this room holds them.
fn list_answer(room: usize, count: u32) -> Result<u32, Refusal>
    ensures { told result ≡ count_answer room count }
{
    if room < count as usize {
        return Err(Refusal::List(count));
    }
    Ok(count)
}

// Whether a node is live at a path.
pub fn contains_node(log: Log<'_>, path: &[u8]) -> Result<bool, Refusal>
    ensures { told_found result ≡ contains_answer log.entry.words.now log.entry.bytes.now path.now }
{
    refused(log, path)?;
    let first = out_field(log.words, 0, layout::FIRST_DEFINITION);
    Ok(contains_node_in(log, first, path))
}

// Row 8, then row 9.
fn refused(log: Log<'_>, path: &[u8]) -> Result<(), Refusal>
    ensures { told_done result ≡ refusal log.entry.words.now log.entry.bytes.now path.now }
{
    log_refused(log)?;
    path_refused(path)
}

// Row 9.
fn path_refused(path: &[u8]) -> Result<(), Refusal>
    ensures { told_done result ≡ good_answer (good_path path.now) passed }
{
    if !good_path(path) {
        return Err(Refusal::Path);
    }
    Ok(())
}
