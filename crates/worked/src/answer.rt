// What the crates paths_numbers, slashes and boxes answer to a case.
use crate::field::{FIELD, first};
use boxes::box_number::{read_box, write_box};
use paths_numbers::codes::Code;
use paths_numbers::dt_node::{self, Joined};
use paths_numbers::dt_property::{BitsSize, BytesError, MissingDigit};
use paths_numbers::operators::EvalError;
use paths_numbers::phandle::MirPhandleTarget;
use paths_numbers::{dt_property, expr_eval, mir, operators, phandle};
use slashes::slash::next_slash;
use std::fmt::Display;
use std::io;
use std::io::Write;

// Prints the answer to a case of this kind.
pub fn answer<W: Write>(out: &mut W, kind: &[u8], a: &[u8], b: &[u8], c: &[u8]) -> io::Result<()> {
    match kind {
        b"strip" => strip(out, a, b),
        b"join" => join(out, a, b),
        b"path" => number(out, u32::from(mir::good_path(a))),
        b"slash" => slash(out, a, small_of(b)),
        b"bytes" => bytes(out, a),
        b"ref" => reference(out, a),
        b"box" => box_number(out, a),
        b"packed" => packed(out, small_of(a) as usize, unsigned_of(b, BitsSize::Bits64)),
        b"i64" => number_or_code(out, expr_eval::parse_int_tok_i64(a)),
        b"width" => number_or_code(out, BitsSize::from_token(a).map(|size| size.bits() as u64)),
        b"cell" => number_or_code(out, dt_property::expr_cell(value_of(b), size_of(a))),
        b"char" => number_or_code(out, dt_property::char_cell(small_of(b), size_of(a))),
        b"prefix" => evaluated(out, operators::eval_prefix(small_of(a), value_of(b))),
        b"infix" => evaluated(
            out,
            operators::eval_infix(small_of(a), value_of(b), value_of(c)),
        ),
        [_, width @ ..] => number_or_code(out, expr_eval::parse_int_tok(a, size_of(width))),
        [] => Ok(()),
    }
}

// What stripping a base finds, or -.
fn strip<W: Write>(out: &mut W, path: &[u8], base: &[u8]) -> io::Result<()> {
    if mir::lies_under(path, base) {
        out.write_all(b"=")?;
        return print_text(out, mir::strip_base(path, base));
    }
    out.write_all(b"-")
}

// The first "/" from a place on, or -.
fn slash<W: Write>(out: &mut W, path: &[u8], from: u32) -> io::Result<()> {
    match next_slash(path, from as usize) {
        Some(place) => number(out, place),
        None => out.write_all(b"-"),
    }
}

// The path of a parent and a name.
fn join<W: Write>(out: &mut W, parent: &[u8], name: &[u8]) -> io::Result<()> {
    let mut room = [0u8; 2 * FIELD + 1];
    let path = Joined {
        parent,
        name,
        unit: b"",
    };
    let Some(n) = dt_node::build_path(path, &mut room, 0) else {
        return Ok(());
    };
    out.write_all(b"=")?;
    print_text(out, first(&room, n))
}

// The bytes of a bytestring in hex digits.
fn bytes<W: Write>(out: &mut W, text: &[u8]) -> io::Result<()> {
    let mut room = [0u8; FIELD];
    match dt_property::lower_bytestring(text, &mut room, 0) {
        Ok(n) => print_hex(out, first(&room, n)),
        Err(BytesError::MissingDigit) => code(out, MissingDigit.code()),
        Err(BytesError::NoRoom) => out.write_all(b"?"),
    }
}

// What a raw reference names.
fn reference<W: Write>(out: &mut W, raw: &[u8]) -> io::Result<()> {
    match phandle::lower_phandle(raw) {
        Some(MirPhandleTarget::Label) => {
            out.write_all(b"label=")?;
            print_text(out, phandle::phandle_label(raw))
        }
        Some(MirPhandleTarget::LabelPath) => {
            out.write_all(b"labelpath=")?;
            print_text(out, phandle::phandle_label(raw))?;
            out.write_all(b"|")?;
            print_text(out, phandle::phandle_path(raw))
        }
        Some(MirPhandleTarget::Path) => {
            out.write_all(b"path=")?;
            print_text(out, phandle::phandle_path(raw))
        }
        None => out.write_all(b"!"),
    }
}

// The box number that bytes hold.
fn box_number<W: Write>(out: &mut W, bytes: &[u8]) -> io::Result<()> {
    match read_box(bytes) {
        Ok(n) => number(out, n),
        Err(refusal) => code(out, refusal.number()),
    }
}

// A box number in so many bytes, in hex digits.
fn packed<W: Write>(out: &mut W, n: usize, value: u64) -> io::Result<()> {
    let mut room = [0u8; FIELD];
    let Some(bytes) = room.get_mut(..n) else {
        return out.write_all(b"?");
    };
    match write_box(value, bytes) {
        Ok(()) => print_hex(out, bytes),
        Err(refusal) => code(out, refusal.number()),
    }
}

// A number, or the code of why there is none.
fn number_or_code<W: Write, T: Display + Drop, E: Code>(
    out: &mut W,
    r: Result<T, E>,
) -> io::Result<()> {
    match r {
        Ok(n) => number(out, n),
        Err(e) => code(out, e.code()),
    }
}

// An operator's result, or the code of why there is none; a missing operator has no code.
fn evaluated<W: Write>(out: &mut W, r: Result<i64, EvalError>) -> io::Result<()> {
    match r {
        Err(EvalError::Missing) => out.write_all(b"!"),
        _ => number_or_code(out, r),
    }
}

// The width that a field names, 64 bits where it names none.
// kept: beside `BitsSize::from_token`, which reads an empty text as 32 bits and takes other ways to write a number.
fn size_of(text: &[u8]) -> BitsSize {
    match text {
        b"8" => BitsSize::Bits8,
        b"16" => BitsSize::Bits16,
        b"32" => BitsSize::Bits32,
        _ => BitsSize::Bits64,
    }
}

// The value of a field, 0 where it is none.
fn value_of(text: &[u8]) -> i64 {
    expr_eval::parse_int_tok_i64(text).unwrap_or(0)
}

// The 32-bit value of a field, 0 where it is none.
fn small_of(text: &[u8]) -> u32 {
    u32::try_from(unsigned_of(text, BitsSize::Bits32)).unwrap_or(0)
}

// The value of a field at an unsigned width, 0 where it is none.
fn unsigned_of(text: &[u8], size: BitsSize) -> u64 {
    expr_eval::parse_int_tok(text, size).unwrap_or(0)
}

fn code<W: Write>(out: &mut W, n: u32) -> io::Result<()> {
    write!(out, "!{n}")
}

fn number<W: Write, T: Display + Drop>(out: &mut W, n: T) -> io::Result<()> {
    write!(out, "={n}")
}

// A text, other bytes than the printable ones as \xHH.
fn print_text<W: Write>(out: &mut W, s: &[u8]) -> io::Result<()> {
    for b in s {
        print_byte(out, *b)?;
    }
    Ok(())
}

// A byte, as \xHH where it is not printable or a backslash.
fn print_byte<W: Write>(out: &mut W, b: u8) -> io::Result<()> {
    match b {
        b'\\' => write!(out, "\\x{b:02x}"),
        b' '..=b'~' => out.write_all(&[b]),
        _ => write!(out, "\\x{b:02x}"),
    }
}

// Bytes in hex digits.
fn print_hex<W: Write>(out: &mut W, s: &[u8]) -> io::Result<()> {
    out.write_all(b"=")?;
    for b in s {
        write!(out, "{b:02x}")?;
    }
    Ok(())
}
