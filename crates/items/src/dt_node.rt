// Where a node of a description goes (dt_node.rs): by the reference among its parts, else by its name.
ghost use Rattle.std.specs.Prelude.{◌≡◌, ◌<◌, true, List, [], ◌∷◌, ℕ};
ghost use Rattle.std.proofs.Math.Option.{some};
ghost use Rattle.paths_numbers.specs.meaning.Path.{root};
ghost use Rattle.making.specs.declared.place.PathAt.{PathAt};
ghost use Rattle.making.specs.meaning.State.{emit};
ghost use Rattle.input.specs.meaning.Report.{report};
ghost use Rattle.input.specs.meaning.Name.{full_name};
ghost use Rattle.input.specs.meaning.Phandle.{lower_phandle};
ghost use Rattle.resolving.specs.meaning.Resolve.{resolve};
ghost use Rattle.items.specs.meaning.Lower.{by_resolution, by_target, placed_as, by_name, place_of};
ghost use Rattle.input.specs.meaning.GoodName.{good_names_in};
ghost use Rattle.input.specs.meaning.Input.{record_count, child_at, span_at};
ghost use Rattle.input.specs.machine.At.{record_at};
ghost use Rattle.resolving.specs.machine.Lowers.{Lowers};
ghost use Rattle.input.specs.machine.NameRead.{FullNameRead};
ghost use Rattle.items.specs.machine.NodePlaced.{PlacesAt, PlacesInAt, placed_at, placed_nowhere};
ghost use Rattle.making.specs.machine.Represents.{LeavesKept};
ghost use Rattle.input.specs.machine.OfRecord.{parts_of, span_in};
ghost use Rattle.items.specs.machine.AtRecord.{node_name_in, named_at};

use crate::dt_property::is_top;
use crate::open_node::{Opened, define_below, define_leading, define_there, open_node};
use crate::report::{emit_name, emit_report};
use definition_log::record::Log;
use input::kinds::{REFERENCE, SLASH};
use input::linked::Record;
use input::name::{FullName, is_named};
use input::phandle::{phandle_label_at, phandle_path_at};
use input::record::span_at;
use making::ctx::LowerCtx;
use making::place::PathAt;
use making::recs::{NO_SPAN, Target};
use paths_numbers::codes::{ROOT_INSIDE, SUBNODE_OUTSIDE};
use paths_numbers::phandle::MirPhandleTarget;
use queries::mir::sets_overlay_in;
use resolving::resolve::{report_unresolved, resolve_phandle};

// Where a node goes before its body is lowered: to the place of its path; to a log of its own for the
// reference of a record, of this kind, which is kept, or which is dropped; to a log of its own that is
// dropped, with no reference; or nowhere, and then nothing below is lowered.
#[derive(Clone, Copy, Debug, PartialEq, Eq)]
pub enum NodePlace {
    At(PathAt),
    Aside(u32, MirPhandleTarget),
    Dropped(u32, MirPhandleTarget),
    Discarded,
    Nowhere,
}

#[derive(Clone, Copy, Debug, PartialEq, Eq)]
pub struct PlacedNode {
    pub node: NodePlace,
    pub ctx: LowerCtx,
}

// Opens or refuses the node of a record: by the reference among its parts, else by its name.
pub fn place_node(
    node: Record<'_>,
    parent: PathAt,
    out: &mut [u32],
    bytes: &mut [u8],
    ctx: LowerCtx,
) -> PlacedNode
    requires good { good_names_in (parts_of node) ≡ true }
    ensures { PlacesInAt parent ctx out.old bytes.old out.new bytes.new node.entry
        (λ p s. place_of p (parts_of node.entry) (span_in node.entry) s) result }
{
    match node.parts().first_of(REFERENCE) {
        Some(reference) => place_by_reference(node, reference, out, bytes, ctx),
        None => place_by_name(node, parent, out, bytes, ctx),
    }
}

// Opens the node of a record where its reference leads, puts it aside, or drops its body.
fn place_by_reference(
    node: Record<'_>,
    number: u32,
    out: &mut [u32],
    bytes: &mut [u8],
    ctx: LowerCtx,
) -> PlacedNode
    requires there { number < record_count node.input.words.now }
    ensures { (parent : PathAt) → PlacesInAt parent ctx out.old bytes.old out.new bytes.new node.entry
        (λ p s. by_target (record_at node.entry.input.words.now node.entry.input.text.now number)
        (lower_phandle (record_at node.entry.input.words.now node.entry.input.text.now number)).reports
        (lower_phandle (record_at node.entry.input.words.now node.entry.input.text.now number)).result s) result }
{
    let input = node.input;
    let reference = Record { input, number };
    match reference.lower_phandle() {
        Ok(kind) => place_resolved(node, number, kind, out, bytes, ctx),
        Err(report) => {
            let told = emit_report(input.words, input.text, report, out, bytes, ctx);
            placed_nowhere(told)
        }
    }
}

// The same of a reference that names a target of this kind.
fn place_resolved(
    node: Record<'_>,
    reference: u32,
    kind: MirPhandleTarget,
    out: &mut [u32],
    bytes: &mut [u8],
    ctx: LowerCtx,
) -> PlacedNode
    ensures { (parent : PathAt) → PlacesInAt parent ctx out.old bytes.old out.new bytes.new node.entry
        (λ p s. by_resolution (record_at node.entry.input.words.now node.entry.input.text.now reference)
        (named_at kind node.entry.input.words.now node.entry.input.text.now reference) s.defs
        (resolve (named_at kind node.entry.input.words.now node.entry.input.text.now reference) s.binds s.defs)) result }
{
    let words = node.input.words;
    let text = node.input.text;
    let defs = ctx.defs.first;
    let log = Log { words: out, bytes };
    let leads = resolve_phandle(words, text, reference, Ok(kind), log, ctx.binds.first, defs);
    match leads {
        Ok(_) => {
            let made = define_leading(node, reference, leads, out, bytes, ctx);
            placed_at(open_node(node.parts(), out, bytes, made))
        }
        Err(_) => {
            let keeps = sets_overlay_in(out, defs);
            let label = phandle_label_at(words, text, reference);
            let path = phandle_path_at(words, text, reference);
            let span = span_at(words, reference);
            let told = report_unresolved(ctx, out, bytes, leads, label, path, span);
            let node = if keeps {
                NodePlace::Aside(reference, kind)
            } else {
                NodePlace::Dropped(reference, kind)
            };
            PlacedNode { node, ctx: told }
        }
    }
}

// Opens or refuses the node of a record by its name.
pub fn place_by_name(
    node: Record<'_>,
    parent: PathAt,
    out: &mut [u32],
    bytes: &mut [u8],
    ctx: LowerCtx,
) -> PlacedNode
    requires good { good_names_in (parts_of node) ≡ true }
    ensures { PlacesAt parent ctx out.old bytes.old out.new bytes.new node.entry
        (λ p. by_name p (parts_of node.entry) (node_name_in node.entry) (full_name (parts_of node.entry)).reports
        (full_name (parts_of node.entry)).result) result }
{
    let input = node.input;
    let parts = node.parts();
    let full = parts.full_name();
    let reported = emit_name(input.words, input.text, full, out, bytes, ctx);
    if is_named(full) {
        return place_below(node, full, parent, out, bytes, reported);
    }
    if parts.has_kind(SLASH) {
        return place_root(node, parent, out, bytes, reported);
    }
    PlacedNode {
        node: NodePlace::Discarded,
        ctx: reported,
    }
}

// A node with a name: under its parent, which is not the top.
fn place_below(
    node: Record<'_>,
    full: FullName,
    parent: PathAt,
    out: &mut [u32],
    bytes: &mut [u8],
    ctx: LowerCtx,
) -> PlacedNode
    requires read { FullNameRead node.input.words.now (child_at node.input.words.now node.number) full }
    requires good { good_names_in (parts_of node) ≡ true }
    ensures { (n : List ℕ) → (full_name (parts_of node.entry)).result ≡ some n
        → PlacesAt parent ctx out.old bytes.old out.new bytes.new node.entry
        (λ p. placed_as p n (node_name_in node.entry) []) result }
{
    if is_top(parent) {
        return placed_nowhere(refuse_node(node, SUBNODE_OUTSIDE, out, bytes, ctx));
    }
    placed_at(define_below(node, full, parent, out, bytes, ctx))
}

// A node with a slash: the root, on top.
fn place_root(
    node: Record<'_>,
    parent: PathAt,
    out: &mut [u32],
    bytes: &mut [u8],
    ctx: LowerCtx,
) -> PlacedNode
    ensures { PlacesAt parent ctx out.old bytes.old out.new bytes.new node.entry
        (λ p. placed_as p root (node_name_in node.entry) []) result }
{
    if !is_top(parent) {
        return placed_nowhere(refuse_node(node, ROOT_INSIDE, out, bytes, ctx));
    }
    placed_at(define_there(node, b"/", out, bytes, ctx))
}

// A node that is opened.
fn placed_at(node: Opened) -> PlacedNode
    ensures { result ≡ placed_at node }
{
    PlacedNode {
        node: NodePlace::At(node.place),
        ctx: node.ctx,
    }
}

// A node that goes nowhere.
fn placed_nowhere(ctx: LowerCtx) -> PlacedNode
    ensures { result ≡ placed_nowhere ctx }
{
    PlacedNode {
        node: NodePlace::Nowhere,
        ctx,
    }
}

// Reports a code at a node's name.
fn refuse_node(
    node: Record<'_>,
    code: u32,
    out: &mut [u32],
    bytes: &mut [u8],
    ctx: LowerCtx,
) -> LowerCtx
    ensures { Lowers ctx result out.old bytes.old out.new bytes.new (emit (report code [] (node_name_in node.entry) ∷ [])) }
{
    let span = node.parts().node_name_span(node.span());
    ctx.emit(out, bytes, code, b"", span, NO_SPAN)
}

// kept: any words and text, so that it asks nothing of them.
// After a body in a log of its own that is kept: an extension for its reference.
pub fn settle_aside(
    words: &[u32],
    text: &[u8],
    r: u32,
    reference: u32,
    kind: MirPhandleTarget,
    out: &mut [u32],
    bytes: &mut [u8],
    body: LowerCtx,
    outer: LowerCtx,
) -> LowerCtx
    ensures { LeavesKept body result outer out.old bytes.old out.new bytes.new
        (named_at kind words.now text.now reference) (span_at words.now r)
        (span_at words.now reference) }
{
    let span = span_at(words, r);
    let name_span = span_at(words, reference);
    let target = Target {
        kind,
        label: phandle_label_at(words, text, reference),
        path: phandle_path_at(words, text, reference),
    };
    body.leave_kept(out, bytes, outer, span, name_span, target)
}
