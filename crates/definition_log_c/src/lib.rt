// The definition log for C, on numbers and slices; include/definition_log.h declares these functions.
// Each calls one function of a crate below and hands its answer over.
#![tactic(auto)]

ghost use Rattle.std.specs.Prelude.{◌≡◌, length};
ghost use Rattle.definition_log.specs.meaning.Alike.{Words32};
ghost use Rattle.queries.specs.meaning.Query.{query_answer, query_out, live_answers, history_answers, contains_answer, told_found};
ghost use Rattle.lowering.specs.meaning.Lowered.{Lowered};
ghost use Rattle.definition_log.specs.meaning.Answer.{told_done};
ghost use Rattle.definition_log.specs.meaning.Answer.{told as answer_told};
ghost use Rattle.boxes.specs.meaning.Box.{read_answer, write_answer, write_out};
ghost use Rattle.boxes.specs.meaning.Box.{box_told as read_told};
ghost use Rattle.definition_log_c.specs.meaning.Told.{told, box_told};

use boxes::box_number::{read_box, write_box};
use definition_log::answer::{Numbers, Refusal};
use definition_log::record::Log;
use lowering::lower::lower;
use queries::query::{contains_node, history, iter_live_defs_under};

// 01's number and what is returned with it.
#[repr(C)]
#[derive(Clone, Copy)]
pub struct DlAnswer {
    pub number: u32,
    pub returned: u32,
}

impl From<Result<u32, Refusal>> for DlAnswer {
    ghost from_gives = { λ answer a. told a ≡ answer_told answer };

    fn from(answer: Result<u32, Refusal>) -> DlAnswer {
        let Numbers { number, returned } = Numbers::from(answer);
        DlAnswer { number, returned }
    }
}

impl From<Result<(), Refusal>> for DlAnswer {
    ghost from_gives = { λ answer a. told a ≡ told_done answer };

    fn from(answer: Result<(), Refusal>) -> DlAnswer {
        DlAnswer::from(answer.map(|()| 0))
    }
}

impl From<Result<bool, Refusal>> for DlAnswer {
    ghost from_gives = { λ answer a. told a ≡ told_found answer };

    fn from(answer: Result<bool, Refusal>) -> DlAnswer {
        DlAnswer::from(answer.map(u32::from))
    }
}

// A box number with number 0, or why there is none, with value 0.
#[repr(C)]
#[derive(Clone, Copy)]
pub struct DlBox {
    pub number: u32,
    pub value: u64,
}

impl From<Result<u64, Refusal>> for DlBox {
    ghost from_gives = { λ answer b. box_told b ≡ read_told answer };

    fn from(answer: Result<u64, Refusal>) -> DlBox {
        match answer {
            Ok(value) => DlBox { number: 0, value },
            Err(refusal) => DlBox {
                number: refusal.number(),
                value: 0,
            },
        }
    }
}

// Lowers a description, any words and any text, at any level and with any starts of files into the buffers that are lent.
#[unsafe(no_mangle)]
pub extern "C" fn dl_lower(
    words: &[u32],
    text: &[u8],
    level: u32,
    starts: &[u32],
    out: &mut [u32],
    bytes: &mut [u8],
) -> DlAnswer
    ensures lowered { Lowered level starts.now words.now text.now out.old
        bytes.old (told result) out.new bytes.new }
    ensures words32 { Words32 out.new }
{
    DlAnswer::from(lower(words, text, level, starts, out, bytes))
}

// The live definitions under a base, latest first, by their record numbers.
#[unsafe(no_mangle)]
pub extern "C" fn dl_iter_live_defs_under(
    words: &[u32],
    bytes: &[u8],
    base: &[u8],
    list: &mut [u32],
) -> DlAnswer
    ensures result_value { told result ≡ query_answer words.now bytes.now base.now (length list.old)
        (live_answers words.now bytes.now base.now) }
    ensures list_after { list.new ≡ query_out words.now bytes.now base.now list.old
        (live_answers words.now bytes.now base.now) }
{
    DlAnswer::from(iter_live_defs_under(Log { words, bytes }, base, list))
}

// The history of a path, earliest first, by record numbers.
#[unsafe(no_mangle)]
pub extern "C" fn dl_history(words: &[u32], bytes: &[u8], path: &[u8], list: &mut [u32]) -> DlAnswer
    ensures result_value { told result ≡ query_answer words.now bytes.now path.now (length list.old)
        (history_answers words.now bytes.now path.now) }
    ensures list_after { list.new ≡ query_out words.now bytes.now path.now list.old
        (history_answers words.now bytes.now path.now) }
{
    DlAnswer::from(history(Log { words, bytes }, path, list))
}

// Whether a node is live at a path: returns 1 or 0.
#[unsafe(no_mangle)]
pub extern "C" fn dl_contains_node(words: &[u32], bytes: &[u8], path: &[u8]) -> DlAnswer
    ensures { told result ≡ contains_answer words.now bytes.now path.now }
{
    DlAnswer::from(contains_node(Log { words, bytes }, path))
}

// Reads a box number of packed decimal.
#[unsafe(no_mangle)]
pub extern "C" fn dl_read_box(packed: &[u8]) -> DlBox
    ensures { box_told result ≡ read_answer packed.now }
{
    DlBox::from(read_box(packed))
}

// Writes a box number as packed decimal into all of a slice, with leading zeros.
#[unsafe(no_mangle)]
pub extern "C" fn dl_write_box(value: u64, packed: &mut [u8]) -> DlAnswer
    ensures result_value { told result ≡ write_answer (length packed.old) value }
    ensures packed_after { packed.new ≡ write_out packed.old value }
{
    DlAnswer::from(write_box(value, packed))
}
