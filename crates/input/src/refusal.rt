// Rows 1 to 6 of 01's table: the check of an input, any words and any text. Row 2 marks the records that are linked; then links go up, so
// that one pass in rising order knows how each reached record stands; the other rows are each a search in rising order.
ghost use Rattle.std.specs.Prelude.{ℕ, ◌<◌, ◌≤◌, ◌≡◌, get_or, List};
ghost use Rattle.std.proofs.Math.Option.{none};
ghost use Rattle.input.specs.meaning.Input.{record_count};
ghost use Rattle.input.specs.meaning.Rows.{most_records, wrong_size, bad_link, bad_links, row_two, bad_text, unfit, bad_head, holds_slash};
ghost use Rattle.input.specs.meaning.Rows.{bad_name, verdict};
ghost use Rattle.input.specs.meaning.RowsAnswer.{told};
ghost use Rattle.input.specs.machine.RowsPass.{found_in};
ghost use Rattle.input.specs.machine.RowsPass.{stored, Marks, mark_links, visit_at, led_on, Stands, is_reached, fault_by, first_fault};
ghost use Rattle.input.specs.machine.RowsPass.{rows_from, later_rows};
ghost use Rattle.input.specs.meaning.GoodName.{good_name};

use crate::kinds::{NAME, REFERENCE};
use crate::limits::{MOST_LINKS, MOST_RECORDS, MOST_TEXT};
use crate::place::Place;
use crate::record::{child_at, field, kind_at, next_at, number_at, second_at, text_at, w_at};
use crate::{layout, place};
use definition_log::answer::Refusal;
use slashes::slash::next_slash;

// How a record stands is one number: this times its depth, and its place's number; 0 where no link has led to it.
// kept: fixed memory, of which an array of places and depths takes three times as much
const PLACES: u32 = 16;

// An input's words and how many records they hold: one at least, and no more than may be, by row 1.
#[derive(Clone, Copy)]
struct Records<'a> {
    words: &'a [u32],
    count: u32,
    ghost counted: { count ≡ record_count words.now },
    ghost some: { 0 < count },
    ghost few: { count ≤ most_records },
}

// The first cause against an input.
pub fn check_input(words: &[u32], text: &[u8]) -> Result<(), Refusal>
    ensures { told result ≡ verdict words.now text.now }
{
    if wrong_size(words, text) {
        return Err(Refusal::Size);
    }
    let count = (words.len() / layout::RECORD_WORDS) as u32;
    let records = Records { words, count };
    let mut marks = [false; MOST_RECORDS];
    if let Some(r) = first_bad_links(records, &mut marks) {
        return Err(Refusal::Link(r));
    }
    check_linked(records, text)
}

// Row 1.
fn wrong_size(words: &[u32], text: &[u8]) -> bool
    ensures { result ≡ wrong_size words.now text.now }
{
    let n = words.len() / layout::RECORD_WORDS;
    if words.len() != n * layout::RECORD_WORDS {
        return true;
    }
    if n < 1 {
        return true;
    }
    if MOST_RECORDS < n {
        return true;
    }
    MOST_TEXT < text.len()
}

// Row 2: the lowest record with a link at fault.
fn first_bad_links(records: Records<'_>, marks: &mut [bool]) -> Option<u32>
    requires { Marks records.words.now 0 marks.old }
    ensures { found_in result ≡ row_two records.entry.words.now }
{
    for r in 0..records.count {
        if bad_links(records, marks, r) {
            return Some(r);
        }
        mark_links(records.words, marks, r);
    }
    None
}

// Whether a record has a link at fault.
fn bad_links(records: Records<'_>, marks: &[bool], r: u32) -> bool
    requires { Marks records.words.now r marks.now }
    ensures { result ≡ bad_links records.entry.words.now r }
{
    let words = records.words;
    let next = next_at(words, r);
    let child = child_at(words, r);
    if bad_link(records, marks, r, &[], next) {
        return true;
    }
    if bad_link(records, marks, r, &[next], child) {
        return true;
    }
    bad_link(records, marks, r, &[next, child], second_at(words, r))
}

// Whether a link of a record is at fault, where these are the record's links before it.
fn bad_link(records: Records<'_>, marks: &[bool], r: u32, earlier: &[u32], l: u32) -> bool
    requires { Marks records.words.now r marks.now }
    ensures { result ≡ bad_link records.entry.words.now r earlier.now l }
{
    if l == 0 {
        return false;
    }
    if l <= r {
        return true;
    }
    if records.count <= l {
        return true;
    }
    if earlier.contains(&l) {
        return true;
    }
    entry_in(marks, l, false)
}

// A record's links marked.
fn mark_links(words: &[u32], marks: &mut [bool], r: u32)
    ensures { marks.new ≡ mark_links words.now r marks.old }
{
    store(marks, next_at(words, r), true);
    store(marks, child_at(words, r), true);
    store(marks, second_at(words, r), true);
}

// Rows 3 to 6, once links go up.
fn check_linked(records: Records<'_>, text: &[u8]) -> Result<(), Refusal>
    requires { row_two records.words.now ≡ none }
    ensures { told result ≡ later_rows records.entry.words.now text.now }
{
    let mut stands = [0u32; MOST_RECORDS];
    find_stands(records, &mut stands);
    check_reached(records, text, &stands)
}

// Rows 3 to 6, by how the records stand.
fn check_reached(records: Records<'_>, text: &[u8], stands: &[u32]) -> Result<(), Refusal>
    ensures { told result ≡ rows_from 4 3 records.entry.words.now text.now stands.now }
{
    if let Some(r) = first_bad_text(records, text) {
        return Err(Refusal::Text(r));
    }
    if let Some(r) = first_unfit(records, stands) {
        return Err(Refusal::Kind(r));
    }
    if let Some(r) = first_misnamed(records, text, stands) {
        return Err(Refusal::Name(r));
    }
    if let Some(r) = first_too_deep(records, stands) {
        return Err(Refusal::Depth(r));
    }
    Ok(())
}

// How each record stands: what a record is told by the one that leads to it.
fn find_stands(records: Records<'_>, stands: &mut [u32])
    requires { Stands records.words.now 0 stands.old }
    ensures { Stands records.entry.words.now records.entry.count stands.new }
{
    let words = records.words;
    store(stands, child_at(words, 0), PLACES + u32::from(Place::Items));
    for r in 1..records.count {
        lead_on(words, r, entry_in(stands, r, 0), stands);
    }
}

// What a record tells of those that it leads to.
fn lead_on(words: &[u32], r: u32, stand: u32, stands: &mut [u32])
    requires { stand < 65536 }
    ensures { stands.new ≡ led_on words.now r stand stands.old }
{
    if stand == 0 {
        return;
    }
    let kind = kind_at(words, r);
    let deeper = (stand / PLACES + 1) * PLACES;
    store(
        stands,
        second_at(words, r),
        deeper + u32::from(place::second_place(kind)),
    );
    store(
        stands,
        child_at(words, r),
        deeper + u32::from(place::child_place(kind)),
    );
    store(stands, next_at(words, r), stand);
}

// Row 3: the lowest record whose text ends behind the text.
fn first_bad_text(records: Records<'_>, text: &[u8]) -> Option<u32>
    ensures { (stands : List ℕ) → found_in result ≡ first_fault 3 records.entry.words.now text.now stands }
{
    (0..records.count).find(|&r| bad_text(records.words, text, r))
}

// Row 4: the lowest record that is unfit.
fn first_unfit(records: Records<'_>, stands: &[u32]) -> Option<u32>
    ensures { (text : List ℕ) → found_in result ≡ first_fault 4 records.entry.words.now text stands.now }
{
    (0..records.count).find(|&r| unfit_at(records.words, stands, r))
}

// Row 5: the lowest record with a bad name.
fn first_misnamed(records: Records<'_>, text: &[u8], stands: &[u32]) -> Option<u32>
    ensures { found_in result ≡ first_fault 5 records.entry.words.now text.now stands.now }
{
    (0..records.count).find(|&r| misnamed_at(records.words, text, stands, r))
}

// Row 6: the lowest record that more links lead to than may.
fn first_too_deep(records: Records<'_>, stands: &[u32]) -> Option<u32>
    ensures { (text : List ℕ) → found_in result ≡ first_fault 6 records.entry.words.now text stands.now }
{
    (0..records.count).find(|&r| too_deep_at(stands, r))
}

// Row 4, of record 0 and of another record that is reached.
fn unfit_at(words: &[u32], stands: &[u32], r: u32) -> bool
    ensures { (text : List ℕ) → result ≡ fault_by 4 words.now text stands.now r }
{
    if r == 0 {
        return bad_head(words);
    }
    is_reached(stands, r) && is_unfit(words, entry_in(stands, r, 0), r)
}

// Row 5, of a record that is reached.
fn misnamed_at(words: &[u32], text: &[u8], stands: &[u32], r: u32) -> bool
    ensures { result ≡ fault_by 5 words.now text.now stands.now r }
{
    is_reached(stands, r) && bad_name(words, text, r)
}

// Row 6, of a record that is reached.
fn too_deep_at(stands: &[u32], r: u32) -> bool
    ensures { (words text : List ℕ) → result ≡ fault_by 6 words text stands.now r }
{
    is_reached(stands, r) && MOST_LINKS < entry_in(stands, r, 0) / PLACES
}

// Whether a record other than record 0 is reached.
fn is_reached(stands: &[u32], r: u32) -> bool
    ensures { result ≡ is_reached stands.now r }
{
    r != 0 && entry_in(stands, r, 0) != 0
}

// Row 3: whether a record's text ends behind the text.
fn bad_text(words: &[u32], text: &[u8], r: u32) -> bool
    ensures { result ≡ bad_text words.now text.now r }
{
    text.len()
        < (field(words, r, layout::TEXT_START) as usize)
            + (field(words, r, layout::TEXT_LENGTH) as usize)
}

// Row 4: whether a word of record 0 but its child is not zero.
fn bad_head(words: &[u32]) -> bool
    ensures { result ≡ bad_head words.now }
{
    [
        layout::KIND,
        layout::NEXT,
        layout::TEXT_START,
        layout::TEXT_LENGTH,
        layout::W,
        layout::SPAN_START,
        layout::SPAN_END,
    ]
    .iter()
    .any(|&i| field(words, 0, i) != 0)
}

// Row 4: whether a record's kind does not fit its place, its W its kind, its child its kind, or its span ends before it starts.
fn is_unfit(words: &[u32], stand: u32, r: u32) -> bool
    ensures { result ≡ unfit words.now (visit_at r stand) }
{
    let kind = kind_at(words, r);
    if !place::fits_alone(
        Place::from(stand % PLACES),
        kind,
        number_at(words, r),
        field(words, r, layout::SPAN_START),
        field(words, r, layout::SPAN_END),
    ) {
        return true;
    }
    if place::has_children(kind) {
        return false;
    }
    child_at(words, r) != 0
}

// Row 5: whether a name is empty, or it or a name reference holds a slash.
fn bad_name(words: &[u32], text: &[u8], r: u32) -> bool
    ensures { result ≡ bad_name words.now text.now (visit_at r 0) }
{
    match kind_at(words, r) {
        NAME => !good_name(text_at(words, text, r)),
        REFERENCE => w_at(words, r) == 0 && holds_slash(text_at(words, text, r)),
        _ => false,
    }
}

// Whether a name is not empty and holds no slash.
fn good_name(name: &[u8]) -> bool
    ensures { result ≡ good_name name.now }
{
    !name.is_empty() && !holds_slash(name)
}

// Whether a text holds a slash.
fn holds_slash(text: &[u8]) -> bool
    ensures { result ≡ holds_slash text.now }
{
    next_slash(text, 0).is_some()
}

// What an array says of a record, and this of one outside it.
fn entry_in<T: Copy>(list: &[T], r: u32, outside: T) -> T
    ensures { result ≡ get_or list.now r outside }
{
    list.get(r as usize).copied().unwrap_or(outside)
}

// And said anew.
fn store<T: Copy>(list: &mut [T], r: u32, v: T)
    ensures { list.new ≡ stored list.old r v }
{
    let at = r as usize;
    // kept: the proof did not close with get_mut, whose contract for slices does not say what the slice is once its item is written
    if at < list.len() {
        list[at] = v;
    }
}
