// The functions of paths_numbers for C, on numbers and slices; include/paths_numbers.h declares
// them.
#![tactic(auto)]

ghost use Rattle.std.specs.Prelude.{◌≡◌, length};
ghost use Rattle.paths_numbers.specs.meaning.Bytestring.{count_of, count_told, written_told, bytes_answer, bytes_out};
ghost use Rattle.paths_numbers.specs.meaning.Cell.{size_of, size_told};
ghost use Rattle.paths_numbers.specs.meaning.Expression.{eval_prefix, eval_infix, eval_conditional, eval_told};
ghost use Rattle.paths_numbers.specs.meaning.Number.{signed_number, i64_told};
ghost use Rattle.paths_numbers.specs.meaning.Path.{at_or_under, stripped, good_path, joined, joined_len, built_answer, built_out};
ghost use Rattle.paths_numbers.specs.meaning.Reading.{told};
ghost use Rattle.paths_numbers.specs.meaning.Reference.{target};
ghost use Rattle.paths_numbers.specs.meaning.Text.{same};
ghost use Rattle.paths_numbers_c.specs.meaning.Told.{truth, number_told, integer_told, result_told, length_told, bytes_told, path_told};
ghost use Rattle.paths_numbers_c.specs.meaning.Told.{width_told, at_width, width_of, int_at, expr_at, char_at, target_told, place_told};
ghost use Rattle.slashes.specs.meaning.Slash.{next_slash};

use paths_numbers::codes::Code;
use paths_numbers::dt_node::{
    Joined, build_path, is_path, lies_under_path, path_len, path_lies_under,
};
use paths_numbers::dt_property::{
    BitsSize, BytesError, MissingDigit, SizeError, bytestring_len, char_cell, expr_cell,
    lower_bytestring,
};
use paths_numbers::expr_eval::{IntErrorKind, parse_int_tok, parse_int_tok_i64};
use paths_numbers::mir::{good_path, lies_under, strip_base};
use paths_numbers::operators::{EvalError, eval_conditional, eval_infix, eval_prefix};
use paths_numbers::phandle::{lower_phandle, phandle_label, phandle_path};
use slashes::slash::next_slash;

// What stands for "no room", and for an operator that is missing: neither has a code.
const NO_ROOM: u32 = 1;

const MISSING: u32 = 1;

// A number with code 0, or a code with value 0.
// kept: a struct for each type of the value, since C has no generic types.
#[repr(C)]
#[derive(Clone, Copy)]
pub struct PnNumber {
    pub code: u32,
    pub value: u64,
}

impl<E: Code> From<Result<u64, E>> for PnNumber {
    ghost from_gives = { λ r n. n ≡ number_told (told E.code_of r) };

    fn from(r: Result<u64, E>) -> PnNumber {
        match r {
            Ok(value) => PnNumber { code: 0, value },
            Err(e) => PnNumber {
                code: e.code(),
                value: 0,
            },
        }
    }
}

impl From<Result<BitsSize, SizeError>> for PnNumber {
    ghost from_gives = { λ r n. n ≡ width_told (size_told r) };

    #[tactic(auto, unfolding(crate::specs::meaning::Told::at_width))]
    fn from(r: Result<BitsSize, SizeError>) -> PnNumber {
        PnNumber::from(r.map(|size| u64::from(size.bits())))
    }
}

// The same of a signed number.
#[repr(C)]
#[derive(Clone, Copy)]
pub struct PnInteger {
    pub code: u32,
    pub value: i64,
}

impl From<Result<i64, IntErrorKind>> for PnInteger {
    ghost from_gives = { λ r n. n ≡ integer_told (i64_told r) };

    fn from(r: Result<i64, IntErrorKind>) -> PnInteger {
        match r {
            Ok(value) => PnInteger { code: 0, value },
            Err(e) => PnInteger {
                code: e.code(),
                value: 0,
            },
        }
    }
}

// Not one impl over `Code` with the one above: a missing operator has no code.
impl From<Result<i64, EvalError>> for PnInteger {
    ghost from_gives = { λ r n. n ≡ result_told (eval_told r) };

    fn from(r: Result<i64, EvalError>) -> PnInteger {
        match r {
            Ok(value) => PnInteger { code: 0, value },
            Err(EvalError::Missing) => PnInteger {
                code: MISSING,
                value: 0,
            },
            Err(e) => PnInteger {
                code: e.code(),
                value: 0,
            },
        }
    }
}

// Number 0 and how many bytes, or why there are none.
#[repr(C)]
#[derive(Clone, Copy)]
pub struct PnWritten {
    pub number: u32,
    pub len: usize,
}

impl From<Option<usize>> for PnWritten {
    ghost from_gives = { λ b w. w ≡ path_told b };

    fn from(b: Option<usize>) -> PnWritten {
        match b {
            Some(len) => PnWritten { number: 0, len },
            None => PnWritten {
                number: NO_ROOM,
                len: 0,
            },
        }
    }
}

impl From<Result<usize, MissingDigit>> for PnWritten {
    ghost from_gives = { λ r w. w ≡ length_told (count_told r) };

    fn from(r: Result<usize, MissingDigit>) -> PnWritten {
        match r {
            Ok(len) => PnWritten { number: 0, len },
            Err(e) => PnWritten {
                number: e.code(),
                len: 0,
            },
        }
    }
}

impl From<Result<usize, BytesError>> for PnWritten {
    ghost from_gives = { λ r w. w ≡ bytes_told (written_told r) };

    fn from(r: Result<usize, BytesError>) -> PnWritten {
        match r {
            Ok(len) => PnWritten { number: 0, len },
            Err(BytesError::MissingDigit) => PnWritten::from(Err(MissingDigit)),
            Err(BytesError::NoRoom) => PnWritten::from(None),
        }
    }
}

// Whether something was found, and its place, 0 where it was not.
#[repr(C)]
#[derive(Clone, Copy)]
pub struct PnPlace {
    pub found: u32,
    pub place: usize,
}

impl From<Option<usize>> for PnPlace {
    ghost from_gives = { λ f p. p ≡ place_told f };

    fn from(f: Option<usize>) -> PnPlace {
        match f {
            Some(place) => PnPlace { found: 1, place },
            None => PnPlace { found: 0, place: 0 },
        }
    }
}

// A reference: 1 label, 2 label and path, 3 path, 0 unreadable. Its parts stand in the raw text: the
// label from 2 on; the path from 2 on where the kind is 3, from 3 + label_len on where it is 2.
#[repr(C)]
#[derive(Clone, Copy)]
pub struct PnReference {
    pub kind: u32,
    pub label_len: usize,
    pub path_len: usize,
}

// Whether `this` lies at or under `base`.
#[unsafe(no_mangle)]
pub extern "C" fn pn_lies_under(this: &[u8], base: &[u8]) -> u32
    ensures { result ≡ truth (at_or_under this.now base.now) }
{
    u32::from(lies_under(this, base))
}

// The length of the part that stripping `base` finds, which is the end of `this`; 0 where it finds
// none.
#[unsafe(no_mangle)]
pub extern "C" fn pn_strip_base(this: &[u8], base: &[u8]) -> usize
    ensures { result ≡ length (stripped this.now base.now) }
{
    let end = strip_base(this, base);
    end.len()
}

// Whether a path has row 9's form.
#[unsafe(no_mangle)]
pub extern "C" fn pn_good_path(path: &[u8]) -> u32
    ensures { result ≡ truth (good_path path.now) }
{
    u32::from(good_path(path))
}

// The first "/" of a path at or behind a place.
#[unsafe(no_mangle)]
pub extern "C" fn pn_next_slash(path: &[u8], from: usize) -> PnPlace
    ensures { result ≡ place_told (next_slash path.now from) }
{
    PnPlace::from(next_slash(path, from))
}

// The length of the path of a parent and a name, whose unit address is empty where there is none.
#[unsafe(no_mangle)]
pub extern "C" fn pn_path_len(parent: &[u8], name: &[u8], unit: &[u8]) -> usize
    ensures { result ≡ joined_len parent.now name.now unit.now }
{
    path_len(Joined { parent, name, unit })
}

// Writes the path of a parent and a name into `out` from `at` on.
#[unsafe(no_mangle)]
pub extern "C" fn pn_build_path(
    parent: &[u8],
    name: &[u8],
    unit: &[u8],
    out: &mut [u8],
    at: usize,
) -> PnWritten
    ensures value { result ≡ path_told (built_answer (joined parent.now name.now unit.now)
        (length out.old) at) }
    ensures out_after { out.new ≡ built_out (joined parent.now name.now unit.now) out.old
        at }
{
    PnWritten::from(build_path(Joined { parent, name, unit }, out, at))
}

// Whether a path is that of a parent and a name.
#[unsafe(no_mangle)]
pub extern "C" fn pn_is_path(this: &[u8], parent: &[u8], name: &[u8], unit: &[u8]) -> u32
    ensures { result ≡ truth (same this.now (joined parent.now name.now unit.now)) }
{
    u32::from(is_path(this, Joined { parent, name, unit }))
}

// Whether a path lies at or under that of a parent and a name.
#[unsafe(no_mangle)]
pub extern "C" fn pn_lies_under_path(this: &[u8], parent: &[u8], name: &[u8], unit: &[u8]) -> u32
    ensures { result ≡ truth (at_or_under this.now (joined parent.now name.now unit.now)) }
{
    u32::from(lies_under_path(this, Joined { parent, name, unit }))
}

// Whether the path of a parent and a name lies at or under another.
#[unsafe(no_mangle)]
pub extern "C" fn pn_path_lies_under(parent: &[u8], name: &[u8], unit: &[u8], base: &[u8]) -> u32
    ensures { result ≡ truth (at_or_under (joined parent.now name.now unit.now) base.now) }
{
    u32::from(path_lies_under(Joined { parent, name, unit }, base))
}

// What a step answers at the width of this many bits, or the code of a width that is none.
#[tactic(auto, unfolding(crate::specs::meaning::Told::at_width))]
fn at_width<E: Code, F: FnOnce(BitsSize) -> Result<u64, E>>(bits: u32, step: F) -> PnNumber
    requires { F.IsAlwaysCallable step }
    ensures { (f : BitsSize → PnNumber) → ((size : BitsSize) (r : _) → F.post step size r → number_told (told E.code_of r) ≡ f size)
        → result ≡ at_width f (width_of bits) }
{
    match BitsSize::try_from(bits as u64) {
        Ok(size) => PnNumber::from(step(size)),
        Err(e) => PnNumber::from(Err::<u64, SizeError>(e)),
    }
}

// An unsigned number's text, read at a width of 8, 16, 32 or 64 bits.
#[unsafe(no_mangle)]
pub extern "C" fn pn_parse_int(text: &[u8], bits: u32) -> PnNumber
    ensures { result ≡ int_at bits text.now }
{
    at_width(bits, |size| parse_int_tok(text, size))
}

// A number's text, read as a signed 64-bit number.
#[unsafe(no_mangle)]
pub extern "C" fn pn_parse_i64(text: &[u8]) -> PnInteger
    ensures { result ≡ integer_told (signed_number text.now) }
{
    PnInteger::from(parse_int_tok_i64(text))
}

// A cell list's width, in bits; the text is empty where there is none.
#[unsafe(no_mangle)]
pub extern "C" fn pn_width(text: &[u8]) -> PnNumber
    ensures { result ≡ width_told (size_of text.now) }
{
    PnNumber::from(BitsSize::from_token(text))
}

// What an expression's result is as a cell of 8, 16, 32 or 64 bits.
#[unsafe(no_mangle)]
pub extern "C" fn pn_expr_cell(num: i64, bits: u32) -> PnNumber
    ensures { result ≡ expr_at bits num }
{
    at_width(bits, |size| expr_cell(num, size))
}

// What a character is as a cell of 8, 16, 32 or 64 bits.
#[unsafe(no_mangle)]
pub extern "C" fn pn_char_cell(ch: u32, bits: u32) -> PnNumber
    ensures { result ≡ char_at bits ch }
{
    at_width(bits, |size| char_cell(ch, size))
}

// The prefix operator of this number on a value; code 1 where there is none.
#[unsafe(no_mangle)]
pub extern "C" fn pn_prefix(op: u32, a: i64) -> PnInteger
    ensures { result ≡ result_told (eval_prefix op a) }
{
    PnInteger::from(eval_prefix(op, a))
}

// The infix operator of this number on two values; code 1 where there is none.
#[unsafe(no_mangle)]
pub extern "C" fn pn_infix(op: u32, a: i64, b: i64) -> PnInteger
    ensures { result ≡ result_told (eval_infix op a b) }
{
    PnInteger::from(eval_infix(op, a, b))
}

// The last infix operator: of two values, the one that a condition picks.
#[unsafe(no_mangle)]
pub extern "C" fn pn_conditional(a: i64, b: i64, c: i64) -> i64
    ensures { result ≡ eval_conditional a b c }
{
    eval_conditional(a, b, c)
}

// How many bytes the text of a bytestring stands for.
#[unsafe(no_mangle)]
pub extern "C" fn pn_bytestring_len(text: &[u8]) -> PnWritten
    ensures { result ≡ length_told (count_of text.now) }
{
    PnWritten::from(bytestring_len(text))
}

// Writes the bytes that the text of a bytestring stands for into `out` from `at` on.
#[unsafe(no_mangle)]
pub extern "C" fn pn_lower_bytestring(text: &[u8], out: &mut [u8], at: usize) -> PnWritten
    ensures value { result ≡ bytes_told (bytes_answer text.now (length out.old) at) }
    ensures out_after { out.new ≡ bytes_out text.now out.old at }
{
    PnWritten::from(lower_bytestring(text, out, at))
}

// What a raw reference, `&{..}`, names.
#[unsafe(no_mangle)]
pub extern "C" fn pn_reference(raw: &[u8]) -> PnReference
    ensures { result ≡ target_told (target raw.now) }
{
    let kind = lower_phandle(raw).map_or(0, u32::from);
    let label = phandle_label(raw);
    let path = phandle_path(raw);
    PnReference {
        kind,
        label_len: label.len(),
        path_len: path.len(),
    }
}
