// Nodes opened: what a node's definition and its labels (collect_labels of dt_node.rs) add to the log.
ghost use Rattle.std.specs.Prelude.{◌≡◌, List, [], ℕ};
ghost use Rattle.paths_numbers.specs.meaning.Path.{joined};
ghost use Rattle.making.specs.declared.place.PathAt.{PathAt};
ghost use Rattle.definition_log.specs.meaning.Contents.{node as node_value};
ghost use Rattle.definition_log.specs.machine.Parts.{meant};
ghost use Rattle.making.specs.machine.Recs.{bare_value};
ghost use Rattle.input.specs.meaning.Tree.{has, omit_kind};
ghost use Rattle.input.specs.meaning.Name.{name_or_macro, node_name_span, labelled, labels_of};
ghost use Rattle.input.specs.machine.OfRecord.{tree_of, parts_of, span_in};
ghost use Rattle.input.specs.machine.ChainLeft.{trees_over, trees_left};
ghost use Rattle.input.specs.machine.NameRead.{name_text, unit_text};
ghost use Rattle.items.specs.machine.Labelled.{LabelsAt};
ghost use Rattle.items.specs.machine.Opened.{Opens, OpensAt};
ghost use Rattle.items.specs.machine.NodePlaced.{DefinesLeading};
ghost use Rattle.input.specs.machine.PhandleRead.{label_at, path_at};

use crate::report::emit_report;
use definition_log::parts::Span;
use input::kinds::{LABEL, OMIT};
use input::linked::{Chain, Record};
use input::name::{FullName, name_text, unit_text};
use input::phandle::phandle_path_at;
use input::record::{kind_at, no_text, text_at};
use making::ctx::LowerCtx;
use making::place::{PathAt, first_place, second_place};
use making::recs::DefKind;
use resolving::resolve::{Leads, Missing};

// A node whose definition is made: where its path stands.
#[derive(Clone, Copy, Debug, PartialEq, Eq)]
pub struct Opened {
    pub place: PathAt,
    pub ctx: LowerCtx,
}

// What a node's definition says but for its path and its labels: its kind, its span and its name's.
struct NodeHead {
    kind: DefKind,
    span: Span,
    name_span: Span,
}

// Opens the node of a record at the path of its name under its parent's.
pub fn define_below(
    node: Record<'_>,
    full: FullName,
    parent: PathAt,
    out: &mut [u32],
    bytes: &mut [u8],
    ctx: LowerCtx,
) -> Opened
    ensures { OpensAt parent ctx out.old bytes.old out.new bytes.new (parts_of node.entry) (span_in node.entry)
        (λ (p : List ℕ). joined p (name_text node.entry.input.words.now node.entry.input.text.now full.name)
        (unit_text node.entry.input.words.now node.entry.input.text.now full.unit)) result }
{
    let NodeHead {
        kind,
        span,
        name_span,
    } = node_head(node);
    let input = node.input;
    let name_of = name_text(input.words, input.text, full.name);
    let unit_of = unit_text(input.words, input.text, full.unit);
    let made = ctx.define(out, bytes, kind, span, name_span, parent, name_of, unit_of);
    open_node(node.parts(), out, bytes, made)
}

// Opens the node of a record at a path.
pub fn define_there(
    node: Record<'_>,
    path: &[u8],
    out: &mut [u32],
    bytes: &mut [u8],
    ctx: LowerCtx,
) -> Opened
    ensures { (parent : PathAt) → OpensAt parent ctx out.old bytes.old out.new bytes.new (parts_of node.entry) (span_in node.entry)
        (λ (p : List ℕ). path.now) result }
{
    let NodeHead {
        kind,
        span,
        name_span,
    } = node_head(node);
    let made = ctx.define_text(out, bytes, kind, span, name_span, path);
    open_node(node.parts(), out, bytes, made)
}

// The definition of the node of a record where its reference leads.
pub fn define_leading(
    node: Record<'_>,
    reference: u32,
    leads: Result<Leads, Missing>,
    out: &mut [u32],
    bytes: &mut [u8],
    ctx: LowerCtx,
) -> LowerCtx
    ensures { DefinesLeading leads (label_at node.entry.input.words.now node.entry.input.text.now reference)
        (path_at node.entry.input.words.now node.entry.input.text.now reference) ctx result out.old bytes.old out.new
        bytes.new (parts_of node.entry) (span_in node.entry) }
{
    let Ok(to) = leads else {
        return ctx;
    };
    let NodeHead {
        kind,
        span,
        name_span,
    } = node_head(node);
    let path = phandle_path_at(node.input.words, node.input.text, reference);
    match to {
        Leads::Bound(b) => {
            let place = second_place(out, b);
            ctx.define_at(out, bytes, kind, span, name_span, place)
        }
        Leads::BoundPath(b) => {
            let place = second_place(out, b);
            let unit = no_text(path);
            ctx.define(out, bytes, kind, span, name_span, place, path, unit)
        }
        Leads::AtPath => ctx.define_text(out, bytes, kind, span, name_span, path),
        Leads::Node(r) => {
            let place = first_place(out, r);
            ctx.define_at(out, bytes, kind, span, name_span, place)
        }
    }
}

// What the definition of a record's node says but for its path and its labels.
fn node_head(node: Record<'_>) -> NodeHead
    ensures kind { bare_value result.kind ≡ node_value [] (has omit_kind (parts_of node.entry)) }
    ensures span { meant result.span ≡ span_in node.entry }
    ensures name_span { meant result.name_span ≡ node_name_span (parts_of node.entry) (span_in node.entry) }
{
    let parts = node.parts();
    let span = node.span();
    NodeHead {
        kind: node_kind(parts),
        span,
        name_span: parts.node_name_span(span),
    }
}

// The kind of a node's definition.
fn node_kind(parts: Chain<'_>) -> DefKind
    ensures { (text : List ℕ) → bare_value result ≡ node_value [] (has omit_kind (trees_over text parts.entry)) }
{
    if parts.has_kind(OMIT) {
        return DefKind::OmittedNode;
    }
    DefKind::Node
}

// The labels of a node whose definition was made just before.
pub fn open_node(parts: Chain<'_>, out: &mut [u32], bytes: &mut [u8], made: LowerCtx) -> Opened
    ensures { Opens made out.old bytes.old out.new bytes.new (trees_left parts.entry) result }
{
    let place = made.newest_path(out);
    let labelled = collect_labels(parts, place, out, bytes, made);
    Opened {
        place,
        ctx: labelled,
    }
}

// The labels of a node among its parts.
pub fn collect_labels(
    parts: Chain<'_>,
    place: PathAt,
    out: &mut [u32],
    bytes: &mut [u8],
    ctx: LowerCtx,
) -> LowerCtx
    ensures { LabelsAt place ctx result out.old bytes.old out.new bytes.new
        (λ (p : List ℕ). labels_of p (trees_left parts.entry)) }
{
    let input = parts.input;
    let mut state = ctx;
    for r in parts {
        if kind_at(input.words, r) == LABEL {
            let part = Record { input, number: r };
            state = lower_label(part, place, out, bytes, state);
        }
    }
    state
}

// A label of a node whose path stands at a place: added to the node's definition and bound.
fn lower_label(
    part: Record<'_>,
    place: PathAt,
    out: &mut [u32],
    bytes: &mut [u8],
    ctx: LowerCtx,
) -> LowerCtx
    ensures { LabelsAt place ctx result out.old bytes.old out.new bytes.new
        (λ (p : List ℕ). labelled p (tree_of part.entry) (name_or_macro (parts_of part.entry))) }
{
    let input = part.input;
    match part.parts().name_or_macro() {
        Ok(n) => {
            let label = text_at(input.words, input.text, n);
            let span = part.span();
            let added = ctx.add_label(out, bytes, label);
            added.bind(out, bytes, label, place, span)
        }
        Err(report) => emit_report(input.words, input.text, report, out, bytes, ctx),
    }
}
