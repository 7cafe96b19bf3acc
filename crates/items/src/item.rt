// Items: directives (handle_dts_directive and emit_delete_directive of item.rs).
ghost use Rattle.std.specs.Prelude.{◌≡◌, true, false};
ghost use Rattle.std.proofs.Math.Option.{some};
ghost use Rattle.paths_numbers.specs.meaning.Path.{joined};
ghost use Rattle.definition_log.specs.machine.Parts.{meant};
ghost use Rattle.making.specs.meaning.State.{emit};
ghost use Rattle.input.specs.meaning.Tree.{name_kind, first_of};
ghost use Rattle.input.specs.machine.OfRecord.{tree_of, parts_of, w_in, span_in};
ghost use Rattle.input.specs.machine.ChainLeft.{trees_left};
ghost use Rattle.items.specs.machine.AtRecord.{named_in};
ghost use Rattle.resolving.specs.meaning.Resolve.{resolve};
ghost use Rattle.input.specs.meaning.GoodName.{good_names_in};
ghost use Rattle.items.specs.meaning.Lower.{delete_node, delete_resolved, delete_referenced, lower_delete_node};
ghost use Rattle.items.specs.meaning.Lower.{delete_property_named, lower_directive};
ghost use Rattle.resolving.specs.machine.Lowers.{Lowers, LowersAt};
ghost use Rattle.items.specs.machine.Deleting.{DeletesAt, DeletesThere, DeletesBound, DefinesBound};

use crate::directive::{DELETE_NODE, DELETE_PROPERTY, INCLUDE, PLUGIN, VERSION};
use crate::report::{emit_name, emit_report};
use crate::unbind::{
    Base, Below, bound_base, goes_with, named_below, unbind_all, unbind_others, unlink_first,
};
use definition_log::parts::Span;
use definition_log::record::Log;
use input::kinds::{NAME, REFERENCE};
use input::linked::{Chain, Record};
use input::record::{no_text, number_at, text_at};
use making::ctx::LowerCtx;
use making::place::{PathAt, first_place, second_place};
use making::recs::{DefKind, NO_SPAN};
use paths_numbers::codes;
use paths_numbers::phandle::MirPhandleTarget;
use resolving::resolve::{Leads, first_with, report_unresolved, resolve_phandle};

// Lowers a directive.
pub fn handle_dts_directive(
    directive: Record<'_>,
    parent: PathAt,
    out: &mut [u32],
    bytes: &mut [u8],
    ctx: LowerCtx,
) -> LowerCtx
    requires good { good_names_in (parts_of directive) ≡ true }
    ensures { LowersAt parent ctx result out.old bytes.old out.new bytes.new
        (λ p s. lower_directive (w_in directive.entry) p (parts_of directive.entry) (span_in directive.entry) s) }
{
    let input = directive.input;
    let span = directive.span();
    let parts = directive.parts();
    match number_at(input.words, directive.number) {
        VERSION => ctx.define_at(out, bytes, DefKind::Version, span, span, parent),
        PLUGIN => ctx.define_at(out, bytes, DefKind::Plugin, span, span, parent),
        INCLUDE => ctx.emit(
            out,
            bytes,
            codes::INCLUDE,
            no_text(input.text),
            span,
            NO_SPAN,
        ),
        DELETE_NODE => emit_delete_node(parts, span, parent, out, bytes, ctx),
        DELETE_PROPERTY => emit_delete_property(parts, span, parent, out, bytes, ctx),
        _ => ctx,
    }
}

// A node deleted: by the name with its unit address, else by the reference among the parts.
fn emit_delete_node(
    parts: Chain<'_>,
    span: Span,
    parent: PathAt,
    out: &mut [u32],
    bytes: &mut [u8],
    ctx: LowerCtx,
) -> LowerCtx
    requires parts_value { good_names_in (trees_left parts) ≡ true }
    ensures { LowersAt parent ctx result out.old bytes.old out.new bytes.new
        (λ p s. lower_delete_node p (trees_left parts.entry) (meant span) s) }
{
    let input = parts.input;
    let full = parts.full_name();
    let told = emit_name(input.words, input.text, full, out, bytes, ctx);
    if let Some(below) = named_below(input.words, input.text, full) {
        return delete_named(told, out, bytes, parent, below, span);
    }
    let Some(number) = parts.first_of(REFERENCE) else {
        return told;
    };
    let reference = Record { input, number };
    delete_referenced(reference, span, out, bytes, told)
}

// A node deleted by its name and unit address under a path.
fn delete_named(
    ctx: LowerCtx,
    out: &mut [u32],
    bytes: &mut [u8],
    parent: PathAt,
    below: Below<'_>,
    span: Span,
) -> LowerCtx
    ensures { LowersAt parent ctx result out.old bytes.old out.new bytes.new
        (λ p s. delete_node (joined p below.entry.name.now below.entry.unit.now) (meant span) s) }
{
    if ctx.short {
        return ctx;
    }
    let without = unbind_all(ctx, out, bytes, Base::Named(parent, below));
    without.define(
        out,
        bytes,
        DefKind::DeletedNode,
        span,
        span,
        parent,
        below.name,
        below.unit,
    )
}

// A node deleted by a reference.
fn delete_referenced(
    reference: Record<'_>,
    span: Span,
    out: &mut [u32],
    bytes: &mut [u8],
    ctx: LowerCtx,
) -> LowerCtx
    ensures { Lowers ctx result out.old bytes.old out.new bytes.new
        (delete_referenced (meant span) (some (tree_of reference.entry))) }
{
    if ctx.short {
        return ctx;
    }
    let input = reference.input;
    match reference.lower_phandle() {
        Ok(kind) => delete_target(reference, kind, span, out, bytes, ctx),
        Err(report) => emit_report(input.words, input.text, report, out, bytes, ctx),
    }
}

// The same by where the reference, which names a target of this kind, leads.
fn delete_target(
    reference: Record<'_>,
    kind: MirPhandleTarget,
    span: Span,
    out: &mut [u32],
    bytes: &mut [u8],
    ctx: LowerCtx,
) -> LowerCtx
    requires { ctx.short ≡ false }
    ensures { Lowers ctx result out.old bytes.old out.new bytes.new
        (λ s. delete_resolved (tree_of reference.entry) (meant span) (resolve (named_in kind reference.entry) s.binds s.defs) s) }
{
    let label = reference.label();
    let path = reference.path();
    let at = reference.span();
    let Record { input, number, .. } = reference;
    let binds = ctx.binds.first;
    let defs = ctx.defs.first;
    let log = Log { words: out, bytes };
    let leads = resolve_phandle(input.words, input.text, number, Ok(kind), log, binds, defs);
    match leads {
        Ok(Leads::Bound(_)) => delete_bound(ctx, out, bytes, None, label, span),
        Ok(Leads::BoundPath(_)) => {
            let below = Below {
                name: path,
                unit: b"",
            };
            delete_bound(ctx, out, bytes, Some(below), label, span)
        }
        Ok(Leads::AtPath) => delete_at(ctx, out, bytes, path, span),
        Ok(Leads::Node(n)) => delete_there(ctx, out, bytes, n, span),
        Err(_) => report_unresolved(ctx, out, bytes, leads, label, path, at),
    }
}

// A property deleted: by the first name among the parts.
fn emit_delete_property(
    parts: Chain<'_>,
    span: Span,
    parent: PathAt,
    out: &mut [u32],
    bytes: &mut [u8],
    ctx: LowerCtx,
) -> LowerCtx
    ensures { LowersAt parent ctx result out.old bytes.old out.new bytes.new
        (λ p s. delete_property_named p (meant span) (first_of name_kind (trees_left parts.entry)) s) }
{
    let input = parts.input;
    let Some(n) = parts.first_of(NAME) else {
        return ctx;
    };
    ctx.define(
        out,
        bytes,
        DefKind::DeletedProperty,
        span,
        span,
        parent,
        text_at(input.words, input.text, n),
        no_text(input.text),
    )
}

// A live node deleted by its path.
fn delete_at(ctx: LowerCtx, out: &mut [u32], bytes: &mut [u8], path: &[u8], span: Span) -> LowerCtx
    ensures { DeletesAt path.now (meant span) ctx result out.old bytes.old out.new
        bytes.new }
{
    let without = unbind_all(ctx, out, bytes, Base::Given(path));
    let Some(found) = first_with(Log { words: out, bytes }, without.defs.first, path) else {
        return without;
    };
    let place = first_place(out, found.number);
    without.define_at(out, bytes, DefKind::DeletedNode, span, span, place)
}

// A node deleted by a definition of it.
fn delete_there(ctx: LowerCtx, out: &mut [u32], bytes: &mut [u8], r: u32, span: Span) -> LowerCtx
    ensures { DeletesThere r (meant span) ctx result out.old bytes.old out.new bytes.new }
{
    let place = first_place(out, r);
    let without = unbind_all(ctx, out, bytes, Base::There(place));
    without.define_at(out, bytes, DefKind::DeletedNode, span, span, place)
}

// A node deleted by its label's first binding, or by a path below that.
fn delete_bound(
    ctx: LowerCtx,
    out: &mut [u32],
    bytes: &mut [u8],
    below: Option<Below<'_>>,
    label: &[u8],
    span: Span,
) -> LowerCtx
    ensures { DeletesBound below.entry label.now (meant span) ctx result out.old bytes.old
        out.new bytes.new }
{
    let log = Log { words: out, bytes };
    let Some(found) = first_with(log, ctx.binds.first, label) else {
        return ctx;
    };
    let number = found.number;
    let goes = goes_with(ctx, log, bound_base(below, number), number);
    let without = unbind_others(ctx, out, bytes, below, label);
    let made = define_bound(without, out, bytes, below, label, span);
    if goes {
        return unlink_first(made, out, bytes, label);
    }
    made
}

// The deletion of a node by its label's first binding, or by a path below that.
fn define_bound(
    ctx: LowerCtx,
    out: &mut [u32],
    bytes: &mut [u8],
    below: Option<Below<'_>>,
    label: &[u8],
    span: Span,
) -> LowerCtx
    ensures { DefinesBound below.entry label.now (meant span) ctx result out.old bytes.old
        out.new bytes.new }
{
    let Some(found) = first_with(Log { words: out, bytes }, ctx.binds.first, label) else {
        return ctx;
    };
    let place = second_place(out, found.number);
    match below {
        Some(below) => ctx.define(
            out,
            bytes,
            DefKind::DeletedNode,
            span,
            span,
            place,
            below.name,
            below.unit,
        ),
        None => ctx.define_at(out, bytes, DefKind::DeletedNode, span, span, place),
    }
}
