// Values and cells read (lower_prop_value and lower_cell of dt_property.rs): what there is to make of
// a record, or to report.
ghost use Rattle.std.specs.Prelude.{◌≡◌, List, ℕ, ◌≤◌};
ghost use Rattle.paths_numbers.specs.meaning.Bytestring.{count_of, count_told};
ghost use Rattle.paths_numbers.specs.meaning.Reading.{told};
ghost use Rattle.paths_numbers.specs.meaning.Cell.{size_told};
ghost use Rattle.input.specs.meaning.Property.{number_cell, expression_cell, reference_cell, lower_cell};
ghost use Rattle.input.specs.meaning.Property.{sized_list, counted_bytes, reference_value, lower_value};
ghost use Rattle.input.specs.meaning.Input.{span_at, text_at, parts_at};
ghost use Rattle.input.specs.meaning.Phandle.{lower_phandle};
ghost use Rattle.input.specs.machine.Fits.{depth_of};
ghost use Rattle.input.specs.machine.OfRecord.{tree_of, parts_of, span_in, cell_told, value_told};
ghost use Rattle.input.specs.machine.ValueRead.{reported, cell_made, value_made};

use crate::kinds::{
    BYTESTRING, CELL_LIST, CHARACTER, DIRECTIVE, EXPRESSION, MACRO, NUMBER, PREPROCESSOR,
    REFERENCE, STRING,
};
use crate::linked::Record;
use crate::record::number_at;
use crate::report::Report;
use paths_numbers::codes::{self, Code};
use paths_numbers::dt_property::{
    BitsSize, MissingDigit, SizeError, bytestring_len, char_cell, expr_cell,
};
use paths_numbers::expr_eval::parse_int_tok;
use paths_numbers::phandle::MirPhandleTarget;

// A cell, which is a number or a reference of a kind.
#[derive(Clone, Copy, Debug, PartialEq, Eq)]
pub enum CellValue {
    Number(u64),
    Phandle(MirPhandleTarget),
}

// A value without cells, by its kind.
#[derive(Clone, Copy, Debug, PartialEq, Eq)]
pub enum PlainValue {
    String,
    Bytestring,
    Phandle(MirPhandleTarget),
}

// A value, which is one without cells or a cell list of a width.
#[derive(Clone, Copy, Debug, PartialEq, Eq)]
pub enum Value {
    Plain(PlainValue),
    CellList(BitsSize),
}

impl Record<'_> {
    // The cell of a width at a record, or what is reported where there is none.
    pub fn read_cell(self, size: BitsSize, nesting: u32, level: u32) -> Result<CellValue, Report>
        requires shallow { depth_of (tree_of self) ≤ nesting }
        ensures { cell_told self.entry result ≡ lower_cell level size (tree_of self.entry) }
    {
        let r = self.number;
        match self.kind() {
            NUMBER => number_cell(r, parse_int_tok(self.text(), size)),
            CHARACTER => number_cell(r, char_cell(number_at(self.input.words, r), size)),
            EXPRESSION => self.expression_cell(size, nesting, level),
            REFERENCE => self.reference_cell(size),
            MACRO => Err(Report::Macro(r)),
            DIRECTIVE => Err(Report::Code(codes::DIRECTIVE_AS_CELL, r)),
            PREPROCESSOR => Err(Report::Code(codes::PREPROCESSOR, r)),
            _ => Err(Report::Nothing),
        }
    }
}

// What was read at record r, or the report of its failure's code.
fn reported<T, E: Code>(r: u32, v: Result<T, E>) -> Result<T, Report>
    ensures { result ≡ reported r (told E.code_of v) }
{
    v.map_err(|e| Report::Code(e.code(), r))
}

// A number that was read at record r, or why there is none.
fn number_cell<E: Code>(r: u32, p: Result<u64, E>) -> Result<CellValue, Report>
    ensures { (words text : List ℕ) → cell_made words text r result ≡ number_cell (span_at words r) (told E.code_of p) }
{
    let n = reported(r, p)?;
    Ok(CellValue::Number(n))
}

impl Record<'_> {
    // The cell of a width at an expression record.
    fn expression_cell(self, size: BitsSize, nesting: u32, level: u32) -> Result<CellValue, Report>
        requires shallow { depth_of (tree_of self) ≤ nesting }
        ensures { cell_told self.entry result ≡ expression_cell level size (span_in self.entry) (parts_of self.entry) }
    {
        if nesting == 0 {
            return Err(Report::Nothing);
        }
        let z = self.parts().eval_first(nesting - 1, level)?;
        number_cell(self.number, expr_cell(z, size))
    }

    // A reference in a cell list of a width.
    fn reference_cell(self, size: BitsSize) -> Result<CellValue, Report>
        ensures { cell_told self.entry result ≡ reference_cell size (span_in self.entry)
            (lower_phandle (tree_of self.entry)) }
    {
        let kind = self.lower_phandle()?;
        if size != BitsSize::Bits32 {
            return Err(Report::Code(codes::REFERENCE_WIDTH, self.number));
        }
        Ok(CellValue::Phandle(kind))
    }

    // The value at a record, or what is reported where there is none.
    pub fn read_value(self) -> Result<Value, Report>
        ensures { (level : ℕ) → value_told self.entry level result ≡ lower_value level (tree_of self.entry) }
    {
        let r = self.number;
        match self.kind() {
            STRING => Ok(Value::Plain(PlainValue::String)),
            CELL_LIST => sized_list(r, BitsSize::from_token(self.text())),
            BYTESTRING => counted_bytes(r, bytestring_len(self.text())),
            REFERENCE => self.reference_value(),
            MACRO => Err(Report::Macro(r)),
            DIRECTIVE => Err(Report::Code(codes::DIRECTIVE_AS_VALUE, r)),
            PREPROCESSOR => Err(Report::Code(codes::PREPROCESSOR, r)),
            _ => Err(Report::Nothing),
        }
    }
}

// A cell list of a width that was read, at record r.
fn sized_list(r: u32, size: Result<BitsSize, SizeError>) -> Result<Value, Report>
    ensures { (level : ℕ) (words text : List ℕ) → value_made words text r level result ≡ sized_list level (span_at words r)
        (parts_at words text r) (size_told size) }
{
    let s = reported(r, size)?;
    Ok(Value::CellList(s))
}

// A bytestring whose bytes were counted, at record r.
fn counted_bytes(r: u32, n: Result<usize, MissingDigit>) -> Result<Value, Report>
    ensures { (level : ℕ) (words text : List ℕ) → count_told n ≡ count_of (text_at words text r)
        → value_made words text r level result ≡ counted_bytes (span_at words r) (text_at words text r) (count_told n) }
{
    reported(r, n)?;
    Ok(Value::Plain(PlainValue::Bytestring))
}

impl Record<'_> {
    // A reference as a value.
    fn reference_value(self) -> Result<Value, Report>
        ensures { (level : ℕ) → value_told self.entry level result ≡ reference_value (lower_phandle (tree_of self.entry)) }
    {
        let kind = self.lower_phandle()?;
        Ok(Value::Plain(PlainValue::Phandle(kind)))
    }
}
