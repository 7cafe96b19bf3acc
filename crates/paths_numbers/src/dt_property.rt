// What dt_property.rs makes of widths, cells and bytestrings.
ghost use Rattle.std.specs.Prelude.{◌≡◌, ◌+◌, ◌≤◌, ◌==◌, not, length, count_by, take_while};
ghost use Rattle.std.specs.Char.{is_digit};
ghost use Rattle.paths_numbers.specs.declared.dt_property.SizeError.TheVariants.{Int};
ghost use Rattle.paths_numbers.specs.declared.dt_property.BytesError.TheVariants as B;
ghost use Rattle.paths_numbers.specs.meaning.Byte.{closing_bracket};
ghost use Rattle.paths_numbers.specs.meaning.Bytestring.{bytes_of, count_of, count_code, count_told, written_told, bytes_answer};
ghost use Rattle.paths_numbers.specs.meaning.Bytestring.{bytes_out};
ghost use Rattle.paths_numbers.specs.meaning.Cell.{bits_of, largest, sized, size_of, size_code, size_told, expr_cell, char_cell, cell_code};
ghost use Rattle.paths_numbers.specs.meaning.Cell.{cell_told};
ghost use Rattle.paths_numbers.specs.meaning.Reading.{value};
ghost use Rattle.paths_numbers.specs.meaning.Text.{written};

use crate::codes::{self, Code};
use crate::expr_eval::{IntErrorKind, parse_int_tok};

// The base of the digits of a bytestring, and what ends its text.
const HEX: u32 = 16;

const CLOSING_BRACKET: u8 = b']';

// The widths of cells.
#[derive(Clone, Copy, Debug, PartialEq, Eq)]
pub enum BitsSize {
    Bits8,
    Bits16,
    Bits32,
    Bits64,
}

// Why a cell list has no width.
#[derive(Clone, Copy, Debug, PartialEq, Eq)]
pub enum SizeError {
    Unsupported,
    Int(IntErrorKind),
}

// Why a cell has no number.
#[derive(Clone, Copy, Debug, PartialEq, Eq)]
pub enum CellError {
    CharTooLarge,
    ExprOutside,
}

// A bytestring's last byte lacks its second hex digit.
#[derive(Clone, Copy, Debug, PartialEq, Eq)]
pub struct MissingDigit;

// Why a bytestring was not written.
#[derive(Clone, Copy, Debug, PartialEq, Eq)]
pub enum BytesError {
    MissingDigit,
    NoRoom,
}

impl BitsSize {
    // How many bits.
    pub fn bits(self) -> u32
        ensures { result ≡ bits_of self }
    {
        match self {
            BitsSize::Bits8 => 8,
            BitsSize::Bits16 => 16,
            BitsSize::Bits32 => 32,
            BitsSize::Bits64 => 64,
        }
    }

    // The largest unsigned number.
    pub fn most(self) -> u64
        ensures { result ≡ largest self }
    {
        match self {
            BitsSize::Bits8 => u8::MAX as u64,
            BitsSize::Bits16 => u16::MAX as u64,
            BitsSize::Bits32 => u32::MAX as u64,
            BitsSize::Bits64 => u64::MAX,
        }
    }

    // A width's text, which is empty where there is none.
    #[tactic(auto, unfolding(crate::specs::meaning::Cell::size_of, crate::specs::meaning::Text::is_empty))]
    pub fn from_token(text: &[u8]) -> Result<BitsSize, SizeError>
        ensures { size_told result ≡ size_of text.now }
    {
        if text.is_empty() {
            return Ok(BitsSize::Bits32);
        }
        let bits = parse_int_tok(text, BitsSize::Bits32)?;
        BitsSize::try_from(bits)
    }
}

// The width of so many bits.
impl TryFrom<u64> for BitsSize {
    type Error = SizeError;

    ghost try_from_gives = { λ bits r. size_told r ≡ sized (value bits) };

    fn try_from(bits: u64) -> Result<BitsSize, SizeError> {
        match bits {
            8 => Ok(BitsSize::Bits8),
            16 => Ok(BitsSize::Bits16),
            32 => Ok(BitsSize::Bits32),
            64 => Ok(BitsSize::Bits64),
            _ => Err(SizeError::Unsupported),
        }
    }
}

impl From<IntErrorKind> for SizeError {
    ghost from_gives = { λ kind e. e ≡ Int kind };

    fn from(kind: IntErrorKind) -> SizeError {
        SizeError::Int(kind)
    }
}

impl Code for SizeError {
    ghost code_of = { size_code };

    fn code(self) -> u32 {
        match self {
            SizeError::Unsupported => codes::WIDTH_UNSUPPORTED,
            SizeError::Int(kind) => kind.code(),
        }
    }
}

// What an expression's result is as a cell of a width.
pub fn expr_cell(num: i64, size: BitsSize) -> Result<u64, CellError>
    ensures { cell_told result ≡ expr_cell (bits_of size) num }
{
    let most = size.most();
    if 0 <= num {
        let n = num as u64;
        if n <= most {
            return Ok(n);
        }
        return Err(CellError::ExprOutside);
    }
    let n = (-1 - num) as u64;
    if n <= most / 2 {
        return Ok(most - n);
    }
    Err(CellError::ExprOutside)
}

// What a character is as a cell of a width.
#[tactic(auto, using(crate::proofs::Cells::char_steps))]
pub fn char_cell(ch: u32, size: BitsSize) -> Result<u64, CellError>
    ensures { cell_told result ≡ char_cell (bits_of size) ch }
{
    let n = u64::from(ch);
    if n <= size.most() {
        return Ok(n);
    }
    Err(CellError::CharTooLarge)
}

impl Code for CellError {
    ghost code_of = { cell_code };

    fn code(self) -> u32 {
        match self {
            CellError::CharTooLarge => codes::CHARACTER_TOO_LARGE,
            CellError::ExprOutside => codes::CELL_OUTSIDE,
        }
    }
}

// How many bytes the text of a bytestring stands for.
pub fn bytestring_len(text: &[u8]) -> Result<usize, MissingDigit>
    ensures { count_told result ≡ count_of text.now }
{
    let n = bytestring_len_digits(text);
    if n % 2 == 1 {
        return Err(MissingDigit);
    }
    Ok(n / 2)
}

impl Code for MissingDigit {
    ghost code_of = { count_code };

    fn code(self) -> u32 {
        codes::ODD_DIGITS
    }
}

impl From<MissingDigit> for BytesError {
    ghost from_gives = { λ _ e. e ≡ B.MissingDigit };

    fn from(_missing: MissingDigit) -> BytesError {
        BytesError::MissingDigit
    }
}

// Writes the bytes that the text of a bytestring stands for into `out` from `at` on.
pub fn lower_bytestring(text: &[u8], out: &mut [u8], at: usize) -> Result<usize, BytesError>
    ensures result_value { written_told result ≡ bytes_answer text.now (length out.old) at }
    ensures out_after { out.new ≡ bytes_out text.now out.old at }
{
    let n = bytestring_len(text)?;
    let Some(room) = out.len().checked_sub(at) else {
        return Err(BytesError::NoRoom);
    };
    if room < n {
        return Err(BytesError::NoRoom);
    }
    write_nibbles(text, out, at);
    Ok(n)
}

// Writes a byte for each two hex digits before the first `]`.
fn write_nibbles(text: &[u8], out: &mut [u8], at: usize)
    requires { at + length (bytes_of text.now) ≤ length out.old }
    ensures { out.new ≡ written out.old at (bytes_of text.now) }
{
    let mut first = None;
    let mut to = at;
    for b in text {
        if *b == CLOSING_BRACKET {
            return;
        }
        let Some(nibble) = char::from(*b).to_digit(HEX) else {
            continue;
        };
        if let Some(high) = first {
            out[to] = (high * HEX + nibble) as u8;
            to += 1;
            first = None;
        } else {
            first = Some(nibble);
        }
    }
}

// How many hex digits stand before the first `]`.
fn bytestring_len_digits(text: &[u8]) -> usize
    ensures { result ≡ count_by (λ b. is_digit b 16) (take_while (λ b. not (b == closing_bracket)) text.now) }
{
    text.iter()
        .take_while(|b| **b != CLOSING_BRACKET)
        .filter(|b| is_hex_digit(**b))
        .count()
}

// Whether a byte is a hex digit.
#[tactic(auto, using(crate::proofs::Digits::hex_same))]
fn is_hex_digit(b: u8) -> bool
    ensures { result ≡ is_digit b 16 }
{
    b.is_ascii_hexdigit()
}
