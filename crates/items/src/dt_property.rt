// Properties and their values (lower_dt_property, lower_prop_value, lower_cell_list and lower_cell of
// dt_property.rs). A property is made before its values.
ghost use Rattle.std.specs.Prelude.{◌≡◌, ◌≤◌, true, []};
ghost use Rattle.paths_numbers.specs.meaning.Cell.{bits_of};
ghost use Rattle.paths_numbers.specs.meaning.Reading as R;
ghost use Rattle.definition_log.specs.meaning.Contents.{number, reference, cell_list};
ghost use Rattle.making.specs.machine.Recs.{meant_target};
ghost use Rattle.input.specs.meaning.Report.{one};
ghost use Rattle.input.specs.meaning.Property.{lower_cell, lower_cells, sized_list, lower_value, lower_values};
ghost use Rattle.items.specs.meaning.Lower.{lower_property};
ghost use Rattle.input.specs.machine.OfRecord.{tree_of, parts_of, contents_of, span_in, plain_told};
ghost use Rattle.input.specs.machine.ChainLeft.{trees_left};
ghost use Rattle.input.specs.meaning.GoodName.{good_names_in};
ghost use Rattle.input.specs.machine.Fits.{depth_of, depths_of};
ghost use Rattle.resolving.specs.machine.Lowers.{LowersAt};
ghost use Rattle.items.specs.machine.Filled.{FillsProperty, FillsCells};
ghost use Rattle.items.specs.machine.PropertyMade.{is_top, property_begun};
ghost use Rattle.items.specs.machine.AtRecord.{named_in};

use crate::report::{emit_code, emit_name, emit_report};
use crate::unbind::{Below, named_below};
use input::linked::{Chain, Record};
use input::value_read::{CellValue, PlainValue, Value};
use making::ctx::LowerCtx;
use making::place::PathAt;
use making::recs::{DefKind, Target};
use paths_numbers::codes::PROPERTY_OUTSIDE;
use paths_numbers::dt_property::BitsSize;
use paths_numbers::phandle::MirPhandleTarget;

// What the values of a property are lowered by: the level, and whether the property is made.
// Where it is not, what is reported of its values is reported all the same.
#[derive(Clone, Copy)]
struct Filling {
    level: u32,
    // kept: an Option of the name would only be asked whether it is there, since no value goes by the name.
    keep: bool,
}

// Lowers a property under a path. A state that ran short stays as it is.
pub fn lower_dt_property(
    property: Record<'_>,
    parent: PathAt,
    nesting: u32,
    out: &mut [u32],
    bytes: &mut [u8],
    ctx: LowerCtx,
    level: u32,
) -> LowerCtx
    requires shallow { depth_of (tree_of property) ≤ nesting }
    requires good { good_names_in (parts_of property) ≡ true }
    ensures { LowersAt parent ctx result out.old bytes.old out.new bytes.new
        (λ p s. lower_property level p (parts_of property.entry) (contents_of property.entry) (span_in property.entry) s) }
{
    if ctx.short {
        return ctx;
    }
    let input = property.input;
    if is_top(parent) {
        return emit_code(
            input.words,
            PROPERTY_OUTSIDE,
            property.number,
            out,
            bytes,
            ctx,
        );
    }
    let name = property.parts().full_name();
    let named = named_below(input.words, input.text, name);
    let made = define_property(property, parent, named, out, bytes, ctx);
    let filling = Filling {
        level,
        keep: named.is_some(),
    };
    let filled = filling.lower_prop_values(property.contents(), nesting - 1, out, bytes, made);
    emit_name(input.words, input.text, name, out, bytes, filled)
}

// Whether a path is that of the file's top, the empty one.
pub(crate) fn is_top(path: PathAt) -> bool
    ensures { result ≡ is_top path }
{
    matches!(path, PathAt::Bytes { size: 0, .. })
}

// The definition of a property that has a name, before its values.
fn define_property(
    property: Record<'_>,
    parent: PathAt,
    named: Option<Below<'_>>,
    out: &mut [u32],
    bytes: &mut [u8],
    ctx: LowerCtx,
) -> LowerCtx
    ensures { LowersAt parent ctx result out.old bytes.old out.new bytes.new
        (λ p s. property_begun property.entry named.entry p s) }
{
    let Some(below) = named else {
        return ctx;
    };
    let span = property.span();
    let name_span = property.parts().property_name_span(span);
    ctx.define(
        out,
        bytes,
        DefKind::Property,
        span,
        name_span,
        parent,
        below.name,
        below.unit,
    )
}

impl Filling {
    // The values of a chain, in order.
    // kept: a loop here and one in `lower_cells`. Over a step as a closure one loop proves, in 19 lines of source, 38 of specs and
    // 13 of proofs more; over a trait's method, in 55 of source and 15 of specs more, and 23 of proofs fewer.
    fn lower_prop_values(
        self,
        values: Chain<'_>,
        nesting: u32,
        out: &mut [u32],
        bytes: &mut [u8],
        ctx: LowerCtx,
    ) -> LowerCtx
        requires shallow { depths_of (trees_left values) ≤ nesting }
        ensures { FillsProperty self.keep ctx result out.old bytes.old out.new bytes.new
            (lower_values self.level (trees_left values.entry)) }
    {
        let input = values.input;
        let mut next = ctx;
        for r in values {
            let value = Record { input, number: r };
            next = self.lower_prop_value(value, nesting, out, bytes, next);
        }
        next
    }

    // A value, or what is reported of it.
    fn lower_prop_value(
        self,
        value: Record<'_>,
        nesting: u32,
        out: &mut [u32],
        bytes: &mut [u8],
        ctx: LowerCtx,
    ) -> LowerCtx
        requires shallow { depth_of (tree_of value) ≤ nesting }
        ensures { FillsProperty self.keep ctx result out.old bytes.old out.new bytes.new
            (lower_value self.level (tree_of value.entry)) }
    {
        let input = value.input;
        match value.read_value() {
            Ok(Value::Plain(plain)) => self.push_value(value, plain, out, bytes, ctx),
            Ok(Value::CellList(size)) => {
                self.lower_cell_list(value, size, nesting, out, bytes, ctx)
            }
            Err(report) => emit_report(input.words, input.text, report, out, bytes, ctx),
        }
    }

    // A value without cells, where it is kept.
    fn push_value(
        self,
        value: Record<'_>,
        plain: PlainValue,
        out: &mut [u32],
        bytes: &mut [u8],
        ctx: LowerCtx,
    ) -> LowerCtx
        ensures { FillsProperty self.keep ctx result out.old bytes.old out.new bytes.new
            (plain_told value.entry plain) }
    {
        if !self.keep {
            return ctx;
        }
        match plain {
            PlainValue::String => ctx.add_string(out, bytes, value.text()),
            PlainValue::Bytestring => ctx.add_bytestring(out, bytes, value.text()),
            PlainValue::Phandle(kind) => ctx.add_phandle(out, bytes, target_of(value, kind)),
        }
    }

    // A cell list of a width, and its cells.
    fn lower_cell_list(
        self,
        list: Record<'_>,
        size: BitsSize,
        nesting: u32,
        out: &mut [u32],
        bytes: &mut [u8],
        ctx: LowerCtx,
    ) -> LowerCtx
        requires shallow { depth_of (tree_of list) ≤ nesting }
        ensures { FillsProperty self.keep ctx result out.old bytes.old out.new bytes.new
            (sized_list self.level (span_in list.entry) (parts_of list.entry) (R.value size)) }
    {
        let made = self.push_cell_list(size, out, bytes, ctx);
        self.lower_cells(list.parts(), size, nesting - 1, out, bytes, made)
    }

    // An empty cell list, where it is kept.
    fn push_cell_list(
        self,
        size: BitsSize,
        out: &mut [u32],
        bytes: &mut [u8],
        ctx: LowerCtx,
    ) -> LowerCtx
        ensures { FillsProperty self.keep ctx result out.old bytes.old out.new bytes.new
            (one (cell_list (bits_of size) [])) }
    {
        if !self.keep {
            return ctx;
        }
        ctx.add_cell_list(out, bytes, size.bits())
    }

    // The cells of a chain, in order.
    fn lower_cells(
        self,
        cells: Chain<'_>,
        size: BitsSize,
        nesting: u32,
        out: &mut [u32],
        bytes: &mut [u8],
        ctx: LowerCtx,
    ) -> LowerCtx
        requires shallow { depths_of (trees_left cells) ≤ nesting }
        ensures { FillsCells self.keep ctx result out.old bytes.old out.new bytes.new
            (lower_cells self.level size (trees_left cells.entry)) }
    {
        let input = cells.input;
        let mut next = ctx;
        for r in cells {
            let cell = Record { input, number: r };
            next = self.lower_cell(cell, size, nesting, out, bytes, next);
        }
        next
    }

    // A cell of a width, or what is reported of it.
    fn lower_cell(
        self,
        cell: Record<'_>,
        size: BitsSize,
        nesting: u32,
        out: &mut [u32],
        bytes: &mut [u8],
        ctx: LowerCtx,
    ) -> LowerCtx
        requires shallow { depth_of (tree_of cell) ≤ nesting }
        ensures { FillsCells self.keep ctx result out.old bytes.old out.new bytes.new
            (lower_cell self.level size (tree_of cell.entry)) }
    {
        let input = cell.input;
        match cell.read_cell(size, nesting, self.level) {
            Ok(CellValue::Number(n)) => self.push_number(n, out, bytes, ctx),
            Ok(CellValue::Phandle(kind)) => self.push_reference(cell, kind, out, bytes, ctx),
            Err(failed) => emit_report(input.words, input.text, failed, out, bytes, ctx),
        }
    }

    // A number in the last cell list, where it is kept.
    fn push_number(self, n: u64, out: &mut [u32], bytes: &mut [u8], ctx: LowerCtx) -> LowerCtx
        ensures { FillsCells self.keep ctx result out.old bytes.old out.new bytes.new
            (one (number n)) }
    {
        if !self.keep {
            return ctx;
        }
        // kept: `n as u32` asks that n fits in 32 bits, so that `%` stands here, and `/` beside it.
        let low = (n % 4294967296) as u32;
        let high = (n / 4294967296) as u32;
        ctx.add_number(out, bytes, low, high)
    }

    // A reference in the last cell list, where it is kept.
    fn push_reference(
        self,
        cell: Record<'_>,
        kind: MirPhandleTarget,
        out: &mut [u32],
        bytes: &mut [u8],
        ctx: LowerCtx,
    ) -> LowerCtx
        ensures { FillsCells self.keep ctx result out.old bytes.old out.new bytes.new
            (one (reference (named_in kind cell.entry))) }
    {
        if !self.keep {
            return ctx;
        }
        ctx.add_reference(out, bytes, target_of(cell, kind))
    }
}

// What a reference record of a kind names.
fn target_of(reference: Record<'_>, kind: MirPhandleTarget) -> Target<'_>
    ensures { meant_target result ≡ named_in kind reference.entry }
{
    Target {
        kind,
        label: reference.label(),
        path: reference.path(),
    }
}
