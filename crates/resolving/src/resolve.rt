// Where references lead: resolve_phandle of lowering/mod.rs. What is asked of the log in hand is asked
// by the heads of its chains, of any words and bytes.
ghost use Rattle.definition_log.specs.machine.Parts.{meant};
ghost use Rattle.resolving.specs.machine.Leading.{AnswersPhandle, AnswersTarget, AnswersLabel, AnswersBelow, AnswersPath};
ghost use Rattle.std.specs.Prelude.{◌≡◌};
ghost use Rattle.resolving.specs.machine.Leading.{FirstWith, ReportsMissing, node_found};

use definition_log::chain::chain;
use definition_log::layout;
use definition_log::parts::Span;
use definition_log::record::{Log, out_field};
use input::phandle::{phandle_label_at, phandle_path_at};
use input::record::no_text;
use input::report::Report;
use making::ctx::LowerCtx;
use making::place::second_place;
use making::recs::NO_SPAN;
use paths_numbers::codes::{LABEL_NOT_FOUND, NODE_AMBIGUOUS, NODE_NOT_FOUND};
use paths_numbers::phandle::MirPhandleTarget;
use paths_numbers::text::equals;
use queries::lookup::{Lookup, lookup_in, lookup_path};
use queries::mir::sets_overlay_in;

// Where a reference leads: to the path of a binding, to its own path below that, to its own path, or to the
// path of a definition.
#[derive(Clone, Copy, Debug, PartialEq, Eq)]
pub enum Leads {
    Bound(u32),
    BoundPath(u32),
    AtPath,
    Node(u32),
}

// One that leads nowhere: for its label, or with a code for its own path or the path below a binding's.
#[derive(Clone, Copy, Debug, PartialEq, Eq)]
pub enum Missing {
    NoLabel,
    NoNode(u32),
    NoNodeBelow(u32, u32),
}

// A record of a chain, and the one before it, 0 where there is none.
#[derive(Clone, Copy, Debug, PartialEq, Eq)]
pub struct Found {
    pub number: u32,
    pub previous: u32,
}

// Where a reference leads that can be read.
// kept: a log and two heads, of which two functions below need one; callers hold both in a LowerCtx, so a struct is made at each call.
pub fn resolve_phandle(
    words: &[u32],
    text: &[u8],
    r: u32,
    read: Result<MirPhandleTarget, Report>,
    log: Log<'_>,
    binds: u32,
    defs: u32,
) -> Result<Leads, Missing>
    ensures { AnswersPhandle words.now text.now r read log.entry.words.now log.entry.bytes.now binds defs result }
{
    let Ok(kind) = read else {
        return Err(Missing::NoLabel);
    };
    let label = phandle_label_at(words, text, r);
    let path = phandle_path_at(words, text, r);
    match kind {
        MirPhandleTarget::Label => resolve_label(log, binds, label),
        MirPhandleTarget::LabelPath => resolve_below(log, binds, defs, label, path),
        MirPhandleTarget::Path => resolve_path(log, defs, path),
    }
}

// Where a reference of a log leads, by its record.
pub fn resolve_target(log: Log<'_>, binds: u32, defs: u32, r: u32) -> Result<Leads, Missing>
    ensures { AnswersTarget log.entry.words.now log.entry.bytes.now binds defs r result }
{
    let n = out_field(log.words, r, layout::N);
    let label = log.first_text(r);
    let path = log.second_text(r);
    match MirPhandleTarget::try_from(n) {
        Ok(MirPhandleTarget::Label) => resolve_label(log, binds, label),
        Ok(MirPhandleTarget::LabelPath) => resolve_below(log, binds, defs, label, path),
        Ok(MirPhandleTarget::Path) => resolve_path(log, defs, path),
        Err(_) => Err(Missing::NoLabel),
    }
}

// Where a label leads.
pub fn resolve_label(log: Log<'_>, binds: u32, label: &[u8]) -> Result<Leads, Missing>
    ensures { AnswersLabel log.entry.words.now log.entry.bytes.now binds label.now result }
{
    let Some(found) = first_with(log, binds, label) else {
        return Err(Missing::NoLabel);
    };
    Ok(Leads::Bound(found.number))
}

// Where a path below a label leads.
pub fn resolve_below(
    log: Log<'_>,
    binds: u32,
    defs: u32,
    label: &[u8],
    path: &[u8],
) -> Result<Leads, Missing>
    ensures { AnswersBelow log.entry.words.now log.entry.bytes.now binds defs label.now path.now result }
{
    let Some(found) = first_with(log, binds, label) else {
        return Err(Missing::NoLabel);
    };
    let number = found.number;
    let base = log.second_text(number);
    let found = lookup_path(log, defs, base, path);
    node_found(found, Leads::BoundPath(number)).map_err(|code| Missing::NoNodeBelow(code, number))
}

// Where a path leads.
pub fn resolve_path(log: Log<'_>, defs: u32, path: &[u8]) -> Result<Leads, Missing>
    ensures { AnswersPath log.entry.words.now log.entry.bytes.now defs path.now result }
{
    node_found(lookup_in(log, defs, path), Leads::AtPath).map_err(|code| Missing::NoNode(code))
}

// The node that a look-up found, which leads as `exact` says where its path is the one looked up; a code where there
// is none.
fn node_found(found: Lookup, exact: Leads) -> Result<Leads, u32>
    ensures { result ≡ node_found exact found }
{
    match found {
        Lookup::Exact => Ok(exact),
        Lookup::Node(r) => Ok(Leads::Node(r)),
        Lookup::NoNode => Err(NODE_NOT_FOUND),
        Lookup::Several => Err(NODE_AMBIGUOUS),
    }
}

// The first record of a chain with this first text: a label's first binding, a definition with a path.
pub fn first_with(log: Log<'_>, first: u32, text: &[u8]) -> Option<Found>
    ensures { FirstWith log.entry.words.now log.entry.bytes.now first text.now result }
{
    let mut previous = 0;
    for r in chain(log.words, first) {
        if equals(log.first_text(r), text) {
            return Some(Found {
                number: r,
                previous,
            });
        }
        previous = r;
    }
    None
}

// Reports a reference that leads nowhere, unless the log in hand is an overlay.
// kept: check_phandle of post_checks tells the three of places in the log, while the texts here lie outside it.
pub fn report_unresolved(
    ctx: LowerCtx,
    out: &mut [u32],
    bytes: &mut [u8],
    leads: Result<Leads, Missing>,
    label: &[u8],
    path: &[u8],
    span: Span,
) -> LowerCtx
    ensures { ReportsMissing leads label.now path.now (meant span) ctx result out.old bytes.old
        out.new bytes.new }
{
    let Err(missing) = leads else {
        return ctx;
    };
    if sets_overlay_in(out, ctx.defs.first) {
        return ctx;
    }
    match missing {
        Missing::NoLabel => ctx.emit(out, bytes, LABEL_NOT_FOUND, label, span, NO_SPAN),
        Missing::NoNode(code) => ctx.emit(out, bytes, code, path, span, NO_SPAN),
        Missing::NoNodeBelow(code, b) => ctx.emit_joined(
            out,
            bytes,
            code,
            span,
            second_place(out, b),
            path,
            no_text(path),
        ),
    }
}
