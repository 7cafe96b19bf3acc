// References of live properties (check_phandles of check_mir_post.rs): one that leads nowhere is
// reported at the property's name.
ghost use Rattle.std.specs.Prelude.{◌≡◌, [], ◌∷◌, map, ◌≤◌, length};
ghost use Rattle.definition_log.specs.meaning.Record.{log_count};
ghost use Rattle.definition_log.specs.meaning.ReadBack.{target_at, cell_at, value_at, name_span_at, def_value_at, def_at};
ghost use Rattle.definition_log.specs.machine.Parts.{meant};
ghost use Rattle.making.specs.meaning.State.{State, emit};
ghost use Rattle.post_checks.specs.meaning.Post.{check_target, check_cell, check_value, check_def, check_defs, check_references};
ghost use Rattle.resolving.specs.machine.Lowers.{Lowers};
ghost use Rattle.post_checks.specs.machine.Checks.{Reports, ReportsLive, Parts, ReportsParts, said, target_place};

use definition_log::chain::Walk;
use definition_log::kinds::{CELL_LIST, PROPERTY, REFERENCE};
use definition_log::layout;
use definition_log::limits::{FEW_RECORDS, LEAST_RECORDS, MOST_RECORDS};
use definition_log::parts::{Span, name_span_of};
use definition_log::record::{Log, child_of, kind_of, log_count, out_field};
use input::record::no_text;
use making::ctx::LowerCtx;
use making::place::{PathAt, first_place, second_place};
use making::recs::NO_SPAN;
use paths_numbers::codes::LABEL_NOT_FOUND;
use paths_numbers::phandle::MirPhandleTarget;
use queries::live::live_list;
use queries::mir::sets_overlay_in;
use resolving::resolve::{Missing, resolve_target};

// Reports references of live properties that lead nowhere, unless the log is an overlay.
pub fn check_phandles(out: &mut [u32], bytes: &mut [u8], ctx: LowerCtx) -> LowerCtx
    ensures { Lowers ctx result out.old bytes.old out.new bytes.new
        (λ (s : State). emit (check_references s) s) }
{
    if sets_overlay_in(out, ctx.defs.first) {
        return ctx;
    }
    let records = log_count(out) as usize;
    if records <= LEAST_RECORDS {
        return check_within::<LEAST_RECORDS>(out, bytes, ctx);
    }
    if records <= FEW_RECORDS {
        return check_within::<FEW_RECORDS>(out, bytes, ctx);
    }
    check_within::<MOST_RECORDS>(out, bytes, ctx)
}

// The reports on all live definitions of a log of at most N records. It is not inlined: the lists of all sizes would
// be on the stack at once.
#[inline(never)]
fn check_within<const N: usize>(out: &mut [u32], bytes: &mut [u8], ctx: LowerCtx) -> LowerCtx
    requires room { log_count out.old ≤ N }
    requires bound { N ≤ 65536 }
    ensures { ReportsLive ctx result out.old bytes.old out.new bytes.new }
{
    let mut list = [0u32; N];
    check_live(out, bytes, ctx, &mut list)
}

// The reports on all live definitions, with room for their list.
fn check_live(out: &mut [u32], bytes: &mut [u8], ctx: LowerCtx, list: &mut [u32]) -> LowerCtx
    requires { log_count out.old ≤ length list.old }
    ensures { ReportsLive ctx result out.old bytes.old out.new bytes.new }
{
    let n = live_list(
        Log { words: out, bytes },
        ctx.defs.first,
        no_text(bytes),
        list,
    );
    check_definitions(out, bytes, ctx, &list[..n as usize])
}

// The reports on definitions.
fn check_definitions(out: &mut [u32], bytes: &mut [u8], ctx: LowerCtx, list: &[u32]) -> LowerCtx
    ensures { Reports ctx result out.old bytes.old out.new bytes.new list.now
        (check_defs (said ctx out.old bytes.old)
        (map (def_at out.old bytes.old) list.now)) }
{
    let mut made = ctx;
    for r in list {
        made = check_definition(out, bytes, made, *r);
    }
    made
}

// The reports on a definition: on the values of a property.
fn check_definition(out: &mut [u32], bytes: &mut [u8], ctx: LowerCtx, r: u32) -> LowerCtx
    ensures { Reports ctx result out.old bytes.old out.new bytes.new (r ∷ [])
        (check_def (said ctx out.old bytes.old) (name_span_at out.old r)
        (def_value_at out.old bytes.old r)) }
{
    if kind_of(out, r) != PROPERTY {
        return ctx;
    }
    let span = name_span_of(out, r);
    let first = child_of(out, r);
    check_parts(out, bytes, ctx, span, first, check_value)
}

// The reports on a chain of parts, of which `check` makes those on one.
fn check_parts<F: Fn(&mut [u32], &mut [u8], LowerCtx, Span, u32) -> LowerCtx>(
    out: &mut [u32],
    bytes: &mut [u8],
    ctx: LowerCtx,
    span: Span,
    first: u32,
    check: F,
) -> LowerCtx
    ghost parts: { Parts }
    requires callable { F.IsAlwaysCallable check }
    requires each { (o b : _) (c : _) (s : _) (r : _) (d : _) (w u : _) → F.post check o b c s r d w u
        → Reports c d o.now b.now w.now u.now (r ∷ []) (parts.one (said c o.now b.now) (meant s) o.now b.now r) }
    ensures { ReportsParts parts (meant span) first ctx result out.old bytes.old out.new bytes.new }
{
    let mut made = ctx;
    let mut walk = Walk::new(out, first);
    while let Some(r) = walk.step(out) {
        made = check(out, bytes, made, span, r);
    }
    made
}

// The reports on a value: on a reference, or on the cells of a list.
fn check_value(out: &mut [u32], bytes: &mut [u8], ctx: LowerCtx, span: Span, r: u32) -> LowerCtx
    ensures { Reports ctx result out.old bytes.old out.new bytes.new (r ∷ [])
        (check_value (said ctx out.old bytes.old) (meant span) (value_at out.old bytes.old r)) }
{
    match kind_of(out, r) {
        CELL_LIST => {
            let first = child_of(out, r);
            check_parts(out, bytes, ctx, span, first, check_cell)
        }
        REFERENCE => check_phandle(out, bytes, ctx, span, r),
        _ => ctx,
    }
}

// The report on a cell, if it is a reference.
fn check_cell(out: &mut [u32], bytes: &mut [u8], ctx: LowerCtx, span: Span, r: u32) -> LowerCtx
    ensures { Reports ctx result out.old bytes.old out.new bytes.new (r ∷ [])
        (check_cell (said ctx out.old bytes.old) (meant span) (cell_at out.old bytes.old r)) }
{
    if kind_of(out, r) != REFERENCE {
        return ctx;
    }
    check_phandle(out, bytes, ctx, span, r)
}

// The report on a reference, where it leads nowhere.
// kept: report_unresolved of resolving tells the three of texts from outside, while the places here lie in the log.
fn check_phandle(out: &mut [u32], bytes: &mut [u8], ctx: LowerCtx, span: Span, r: u32) -> LowerCtx
    ensures { Reports ctx result out.old bytes.old out.new bytes.new (r ∷ [])
        (check_target (said ctx out.old bytes.old) (meant span)
        (target_at out.old bytes.old r)) }
{
    let label = target_place(out, r);
    let path = second_place(out, r);
    match resolve_target(
        Log { words: out, bytes },
        ctx.binds.first,
        ctx.defs.first,
        r,
    ) {
        Ok(_) => ctx,
        Err(Missing::NoLabel) => ctx.emit_copied(out, bytes, LABEL_NOT_FOUND, span, NO_SPAN, label),
        Err(Missing::NoNode(code)) => ctx.emit_copied(out, bytes, code, span, NO_SPAN, path),
        Err(Missing::NoNodeBelow(code, b)) => {
            ctx.emit_joined_at(out, bytes, code, span, second_place(out, b), path)
        }
    }
}

// The place of a reference's label, an empty one where it has none.
fn target_place(out: &[u32], r: u32) -> PathAt
    ensures { result ≡ target_place out.now r }
{
    match MirPhandleTarget::try_from(out_field(out, r, layout::N)) {
        Ok(MirPhandleTarget::Label | MirPhandleTarget::LabelPath) => first_place(out, r),
        Ok(MirPhandleTarget::Path) => PathAt::EMPTY,
        Err(_) => PathAt::EMPTY,
    }
}
