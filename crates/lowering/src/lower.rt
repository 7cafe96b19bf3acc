// The whole of lowering (lower_item of item.rs over the top items, then check_mir_post): the level, rows 1
// to 6 of 01's table, the files' starts, row 7, and the log that is written where none of them refuses.
ghost use Rattle.std.specs.Prelude.{◌≡◌, true};
ghost use Rattle.levels.specs.meaning.Rules.{is_level};
ghost use Rattle.files.specs.meaning.Files.{good_files};
ghost use Rattle.definition_log.specs.meaning.Alike.{Words32};
ghost use Rattle.making.specs.machine.Represents.{Represents, at_start};
ghost use Rattle.definition_log.specs.meaning.Answer.{told};
ghost use Rattle.input.specs.meaning.Rows.{accepted, verdict};
ghost use Rattle.lowering.specs.meaning.Lowered.{meaning, Lowered};

use crate::lower_item::lower_items;
use definition_log::answer::Refusal;
use file_words::file_words::put_files;
use files::files::{Files, good_files};
use input::limits::MOST_LINKS;
use input::linked::Input;
use input::record::child_at;
use input::refusal::check_input;
use levels::level::is_level;
use making::ctx::LowerCtx;
use making::place::PathAt;
use making::start::{clear, start};
use post_checks::check_mir_post::check_mir_post;

// Lowers an input at a level into the buffers that are lent, its files starting at these places: any words,
// any text, any level, any starts, any buffers.
// That words are u32 is the slice's type; it is promised too since demand 3 compares words.
pub fn lower(
    words: &[u32],
    text: &[u8],
    level: u32,
    starts: &[u32],
    out: &mut [u32],
    bytes: &mut [u8],
) -> Result<u32, Refusal>
    ensures lowered { Lowered level starts.now words.now text.now out.old
        bytes.old (told result)
        out.new
        bytes.new }
    ensures words32 { Words32 out.new }
{
    if !is_level(level) {
        return Err(Refusal::Level);
    }
    check_input(words, text)?;
    if !good_files(starts) {
        return Err(Refusal::Files);
    }
    lower_files(Input { words, text }, level, Files { starts }, out, bytes)
}

// Lowers an accepted input of these files. A log that does not fit is cleared away, by row 7.
fn lower_files(
    input: Input<'_>,
    level: u32,
    files: Files<'_>,
    out: &mut [u32],
    bytes: &mut [u8],
) -> Result<u32, Refusal>
    requires level_value { is_level level ≡ true }
    requires text_value { verdict input.words.now input.text.now ≡ accepted }
    requires files_value { good_files files.starts.now ≡ true }
    ensures { Lowered level files.entry.starts.now input.entry.words.now input.entry.text.now out.old
        bytes.old (told result)
        out.new
        bytes.new }
{
    let lowered = lower_top(input, level, out, bytes);
    let reported = lowered.diags.first;
    let checked = check_mir_post(out, bytes, lowered.start_checks());
    if checked.short {
        clear(out, bytes);
        return Err(Refusal::Room);
    }
    checked.finish(out, reported);
    put_files(out, checked.records, files);
    Ok(0)
}

// Lowers the top items of an accepted input, whose parent path is empty, from an empty log on.
fn lower_top(input: Input<'_>, level: u32, out: &mut [u32], bytes: &mut [u8]) -> LowerCtx
    requires { verdict input.words.now input.text.now ≡ accepted }
    ensures { Represents at_start result out.new bytes.new (meaning level input.entry.words.now
        input.entry.text.now) }
{
    let ctx = start(out, bytes);
    let items = input.chain(child_at(input.words, 0));
    lower_items(items, PathAt::EMPTY, MOST_LINKS, out, bytes, ctx, level)
}
