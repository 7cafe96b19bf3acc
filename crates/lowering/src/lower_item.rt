// Items lowered (lower_item of item.rs and lower_dt_node of dt_node.rs): an item calls the node, a
// node its body's items, and the nesting that is left falls with each body.
ghost use Rattle.std.specs.Prelude.{◌≡◌, ◌≤◌, true, List, ℕ};
ghost use Rattle.making.specs.meaning.State.{State};
ghost use Rattle.items.specs.meaning.Lower.{lower_node, lower_item, lower_items};
ghost use Rattle.input.specs.machine.ChainLeft.{trees_left};
ghost use Rattle.input.specs.machine.Fits.{depth_of, depths_of};
ghost use Rattle.input.specs.machine.OfRecord.{tree_of, parts_of, contents_of, span_in};
ghost use Rattle.input.specs.meaning.GoodName.{good_names, good_names_in};
ghost use Rattle.resolving.specs.machine.Lowers.{LowersAt};

use input::kinds::{DIRECTIVE, NODE, PREPROCESSOR, PROPERTY};
use input::linked::{Chain, Input, Record};
use items::dt_node::{NodePlace, place_node, settle_aside};
use items::dt_property::lower_dt_property;
use items::item::handle_dts_directive;
use items::report::emit_code;
use making::ctx::LowerCtx;
use making::place::PathAt;
use paths_numbers::codes;

// Lowers a chain of items under a path.
#[cycle(nesting)]
pub fn lower_items(
    items: Chain<'_>,
    parent: PathAt,
    nesting: u32,
    out: &mut [u32],
    bytes: &mut [u8],
    ctx: LowerCtx,
    level: u32,
) -> LowerCtx
    requires shallow { depths_of (trees_left items) ≤ nesting }
    requires good { good_names_in (trees_left items) ≡ true }
    ensures { LowersAt parent ctx result out.old bytes.old out.new bytes.new (λ p s. lower_items level (trees_left items.entry) p s) }
{
    let input = items.input;
    let mut state = ctx;
    for r in items {
        let item = Record { input, number: r };
        state = lower_item(item, parent, nesting, out, bytes, state, level);
    }
    state
}

// Lowers an item under a path.
#[cycle(nesting)]
fn lower_item(
    item: Record<'_>,
    parent: PathAt,
    nesting: u32,
    out: &mut [u32],
    bytes: &mut [u8],
    ctx: LowerCtx,
    level: u32,
) -> LowerCtx
    requires shallow { depth_of (tree_of item) ≤ nesting }
    requires good { good_names (tree_of item) ≡ true }
    ensures { LowersAt parent ctx result out.old bytes.old out.new bytes.new (λ p s. lower_item level (tree_of item.entry) p s) }
{
    let Record { input, number, .. } = item;
    let kind = item.kind();
    match kind {
        NODE => lower_dt_node(item, parent, nesting, out, bytes, ctx, level),
        PROPERTY => lower_dt_property(item, parent, nesting, out, bytes, ctx, level),
        DIRECTIVE => handle_dts_directive(item, parent, out, bytes, ctx),
        PREPROCESSOR => emit_code(input.words, codes::PREPROCESSOR, number, out, bytes, ctx),
        _ => ctx,
    }
}

// Lowers a node: where it goes, and then its body, at "/" where it has a log of its own. A state that ran short stays as it is.
#[cycle(nesting)]
fn lower_dt_node(
    node: Record<'_>,
    parent: PathAt,
    nesting: u32,
    out: &mut [u32],
    bytes: &mut [u8],
    ctx: LowerCtx,
    level: u32,
) -> LowerCtx
    requires shallow { depth_of (tree_of node) ≤ nesting }
    requires good { good_names (tree_of node) ≡ true }
    ensures { LowersAt parent ctx result out.old bytes.old out.new bytes.new (λ p s. lower_node p (parts_of node.entry) (span_in node.entry)
        (λ (q : List ℕ) (u : State). lower_items level (contents_of node.entry) q u) s) }
{
    if ctx.short {
        return ctx;
    }
    let body = node.contents();
    let deeper = nesting - 1;
    let placed = place_node(node, parent, out, bytes, ctx);
    let made = placed.ctx;
    match placed.node {
        NodePlace::At(place) => lower_items(body, place, deeper, out, bytes, made, level),
        NodePlace::Aside(reference, kind) => {
            let inner = made.enter(true);
            let apart = lower_items(body, PathAt::Root, deeper, out, bytes, inner, level);
            let (Input { words, text, .. }, number) = (node.input, node.number);
            settle_aside(
                words, text, number, reference, kind, out, bytes, apart, made,
            )
        }
        NodePlace::Dropped(..) | NodePlace::Discarded => {
            let inner = made.enter(false);
            let apart = lower_items(body, PathAt::Root, deeper, out, bytes, inner, level);
            apart.leave_dropped(out, bytes, made)
        }
        NodePlace::Nowhere => made,
    }
}
