// What lowering reports (undefined_macro of lowering/mod.rs and the calls of diag.rs), by the record
// that a diagnostic speaks of.
ghost use Rattle.std.specs.Prelude.{[], ◌∷◌};
ghost use Rattle.making.specs.meaning.State.{emit};
ghost use Rattle.input.specs.meaning.Report.{report, undefined_macro};
ghost use Rattle.input.specs.meaning.Input.{span_at};
ghost use Rattle.input.specs.machine.At.{record_at};
ghost use Rattle.resolving.specs.machine.Lowers.{Lowers};
ghost use Rattle.input.specs.machine.NameRead.{name_read, full_read};
ghost use Rattle.input.specs.machine.Reported.{reports_of};

use input::name::FullName;
use input::record::{span_at, text_at};
use input::report::Report;
use making::ctx::LowerCtx;
use making::recs::NO_SPAN;
use paths_numbers::codes::MACRO_UNDEFINED;

// Reports it.
// kept: this and the others take any words and text, so that they ask nothing of them.
pub fn emit_report(
    words: &[u32],
    text: &[u8],
    report: Report,
    out: &mut [u32],
    bytes: &mut [u8],
    ctx: LowerCtx,
) -> LowerCtx
    ensures { Lowers ctx result out.old bytes.old out.new bytes.new
        (emit (reports_of words.now text.now report)) }
{
    match report {
        Report::Nothing => ctx,
        Report::Macro(m) => undefined_macro(words, text, m, out, bytes, ctx),
        Report::Code(code, r) => emit_code(words, code, r, out, bytes, ctx),
    }
}

// Reports a macro that is not defined.
pub fn undefined_macro(
    words: &[u32],
    text: &[u8],
    m: u32,
    out: &mut [u32],
    bytes: &mut [u8],
    ctx: LowerCtx,
) -> LowerCtx
    ensures { Lowers ctx result out.old bytes.old out.new bytes.new
        (emit (undefined_macro (record_at words.now text.now m) ∷ [])) }
{
    let span = span_at(words, m);
    let name = text_at(words, text, m);
    ctx.emit(out, bytes, MACRO_UNDEFINED, name, span, NO_SPAN)
}

// Reports a code at a record.
pub fn emit_code(
    words: &[u32],
    code: u32,
    r: u32,
    out: &mut [u32],
    bytes: &mut [u8],
    ctx: LowerCtx,
) -> LowerCtx
    ensures { Lowers ctx result out.old bytes.old out.new bytes.new
        (emit (report code [] (span_at words.now r) ∷ [])) }
{
    let span = span_at(words, r);
    ctx.emit(out, bytes, code, b"", span, NO_SPAN)
}

// Reports the macros in the places of a name and of its unit address.
pub fn emit_name(
    words: &[u32],
    text: &[u8],
    f: FullName,
    out: &mut [u32],
    bytes: &mut [u8],
    ctx: LowerCtx,
) -> LowerCtx
    ensures { Lowers ctx result out.old bytes.old out.new bytes.new
        (emit (full_read words.now text.now f).reports) }
{
    let named = emit_unnamed(words, text, f.name, out, bytes, ctx);
    match f.unit {
        Some(unit) => emit_unnamed(words, text, unit, out, bytes, named),
        None => named,
    }
}

// Reports what stands in the place of a name.
fn emit_unnamed(
    words: &[u32],
    text: &[u8],
    n: Result<u32, Report>,
    out: &mut [u32],
    bytes: &mut [u8],
    ctx: LowerCtx,
) -> LowerCtx
    ensures { Lowers ctx result out.old bytes.old out.new bytes.new
        (emit (name_read words.now text.now n).reports) }
{
    match n {
        Ok(_) => ctx,
        Err(report) => emit_report(words, text, report, out, bytes, ctx),
    }
}
