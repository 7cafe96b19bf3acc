// The bindings that a deletion takes out of the log: those of live nodes' labels to their paths.
ghost use Rattle.std.specs.Prelude.{◌≡◌, false};
ghost use Rattle.definition_log.specs.meaning.ReadBack.{binding_at};
ghost use Rattle.items.specs.machine.Unbinding.{base_of, goes_with, text_of, stop_of, Passes, Unbinds, UnbindsAll, bound_base};
ghost use Rattle.items.specs.machine.PropertyMade.{NamesBelow};
ghost use Rattle.items.specs.machine.Unbinding.{UnbindsOthers, UnbindsBehind, UnlinksFirst};

use definition_log::chain::Walk;
use definition_log::record::Log;
use input::name::{FullName, is_named, name_text, unit_text};
use making::ctx::LowerCtx;
use making::place::PathAt;
use paths_numbers::dt_node::Joined;
use paths_numbers::text::equals;
use queries::mir::unbinds;
use resolving::resolve::first_with;

// A name below a path. The unit address is empty where there is none.
#[derive(Clone, Copy, Debug, PartialEq, Eq)]
pub struct Below<'a> {
    pub name: &'a [u8],
    pub unit: &'a [u8],
}

// What a full name says, where the name is there, and one in its unit address where there is one.
pub(crate) fn named_below<'a, 'b>(
    words: &'b [u32],
    text: &'a [u8],
    full: FullName,
) -> Option<Below<'a>>
    ensures { NamesBelow words.now text.now full result }
{
    if !is_named(full) {
        return None;
    }
    Some(Below {
        name: name_text(words, text, full.name),
        unit: unit_text(words, text, full.unit),
    })
}

// The path of a deletion: of a name and a unit address below a place, that of a place, one that is given, a
// binding's path, or of a name below that.
#[derive(Clone, Copy, Debug, PartialEq, Eq)]
pub enum Base<'a> {
    Named(PathAt, Below<'a>),
    There(PathAt),
    Given(&'a [u8]),
    Bound(u32),
    BoundPath(u32, Below<'a>),
}

// After one binding: the state, and the last binding that is left before the next.
#[derive(Clone, Copy, Debug, PartialEq, Eq)]
pub struct Unlinked {
    pub ctx: LowerCtx,
    pub previous: u32,
}

// After several: the binding at which the walk stopped, where it did, and the walk behind it.
#[derive(Clone, Copy, Debug, PartialEq, Eq)]
pub struct Unbound {
    pub ctx: LowerCtx,
    pub previous: u32,
    pub here: Option<u32>,
    pub rest: Walk,
}

// Takes out bindings along a walk, before which `before` stands, up to the first with the label `until`,
// where there is one.
pub fn unbind(
    ctx: LowerCtx,
    out: &mut [u32],
    bytes: &mut [u8],
    base: Base<'_>,
    until: Option<&[u8]>,
    before: u32,
    from: Walk,
) -> Unbound
    ensures { Unbinds base.entry (text_of until.entry) ctx out.old
        bytes.old out.new bytes.new before from result }
{
    let mut d = ctx;
    let mut previous = before;
    let mut walk = from;
    while let Some(r) = walk.step(out) {
        if stops_at(Log { words: out, bytes }, until, r) {
            return Unbound {
                ctx: d,
                previous,
                here: Some(r),
                rest: walk,
            };
        }
        let one = unbind_one(d, out, bytes, base, previous, r);
        d = one.ctx;
        previous = one.previous;
    }
    Unbound {
        ctx: d,
        previous,
        here: None,
        rest: walk,
    }
}

// Whether a walk up to a label stops at record r.
fn stops_at(log: Log<'_>, until: Option<&[u8]>, r: u32) -> bool
    ensures { result ≡ stop_of (text_of until.entry) (binding_at log.entry.words.now log.entry.bytes.now r) }
{
    match until {
        Some(label) => equals(log.first_text(r), label),
        None => false,
    }
}

// Takes out one binding, before which `previous` stands, or leaves it.
fn unbind_one(
    ctx: LowerCtx,
    out: &mut [u32],
    bytes: &mut [u8],
    base: Base<'_>,
    previous: u32,
    r: u32,
) -> Unlinked
    ensures { Passes ctx result.ctx out.old bytes.old out.new bytes.new
        (base_of ctx.bytes out.old bytes.old base.entry) previous r
        result.previous }
{
    if goes_with(ctx, Log { words: out, bytes }, base, r) {
        return Unlinked {
            ctx: ctx.unlink_binding(out, bytes, previous, r),
            previous,
        };
    }
    Unlinked { ctx, previous: r }
}

// Whether a binding goes with what is deleted.
#[tactic(auto, using(crate::proofs::Unbinding::goes_by), unfolding(crate::specs::machine::Unbinding::base_of))]
pub fn goes_with(ctx: LowerCtx, log: Log<'_>, base: Base<'_>, r: u32) -> bool
    ensures { result ≡ goes_with log.entry.words.now log.entry.bytes.now ctx.defs.first
        (base_of ctx.bytes log.entry.words.now log.entry.bytes.now base.entry) r }
{
    let label = log.first_text(r);
    let path = log.second_text(r);
    let defs = ctx.defs.first;
    match base {
        Base::Named(place, Below { name, unit }) => {
            let parent = place.text(ctx.bytes, log.bytes);
            unbinds(log, defs, Joined { parent, name, unit }, label, path)
        }
        Base::There(place) => {
            let there = place.text(ctx.bytes, log.bytes);
            unbinds(log, defs, there, label, path)
        }
        Base::Given(given) => unbinds(log, defs, given, label, path),
        Base::Bound(b) => unbinds(log, defs, log.second_text(b), label, path),
        Base::BoundPath(b, Below { name, unit }) => {
            let parent = log.second_text(b);
            unbinds(log, defs, Joined { parent, name, unit }, label, path)
        }
    }
}

// Takes out all bindings that go with what is deleted.
pub fn unbind_all(ctx: LowerCtx, out: &mut [u32], bytes: &mut [u8], base: Base<'_>) -> LowerCtx
    ensures { UnbindsAll base.entry ctx result out.old bytes.old out.new
        bytes.new }
{
    let binds = Walk::new(out, ctx.binds.first);
    let all = unbind(ctx, out, bytes, base, None, 0, binds);
    all.ctx
}

// The path of a binding, or of a name below it.
pub fn bound_base(below: Option<Below<'_>>, r: u32) -> Base<'_>
    ensures { result ≡ bound_base below.entry r }
{
    match below {
        Some(name) => Base::BoundPath(r, name),
        None => Base::Bound(r),
    }
}

// Takes out all bindings but the label's first that go with what is deleted, whose path is that
// binding's or the path of a name below it.
pub fn unbind_others(
    ctx: LowerCtx,
    out: &mut [u32],
    bytes: &mut [u8],
    below: Option<Below<'_>>,
    label: &[u8],
) -> LowerCtx
    ensures { UnbindsOthers below.entry label.now ctx result out.old
        bytes.old out.new bytes.new }
{
    let Some(found) = first_with(Log { words: out, bytes }, ctx.binds.first, label) else {
        return ctx;
    };
    let base = bound_base(below, found.number);
    let binds = Walk::new(out, ctx.binds.first);
    let up = unbind(ctx, out, bytes, base, Some(label), 0, binds);
    unbind_behind(up, out, bytes, below)
}

// The same behind the binding at which the walk stopped.
fn unbind_behind(
    up: Unbound,
    out: &mut [u32],
    bytes: &mut [u8],
    below: Option<Below<'_>>,
) -> LowerCtx
    ensures { UnbindsBehind below.entry up result out.old bytes.old out.new bytes.new }
{
    match up.here {
        Some(r) => {
            let base = bound_base(below, r);
            let behind = unbind(up.ctx, out, bytes, base, None, r, up.rest);
            behind.ctx
        }
        None => up.ctx,
    }
}

// Takes out the label's first binding.
pub fn unlink_first(ctx: LowerCtx, out: &mut [u32], bytes: &mut [u8], label: &[u8]) -> LowerCtx
    ensures { UnlinksFirst label.now ctx result out.old bytes.old out.new
        bytes.new }
{
    let Some(found) = first_with(Log { words: out, bytes }, ctx.binds.first, label) else {
        return ctx;
    };
    ctx.unlink_binding(out, bytes, found.previous, found.number)
}
