// The post checks (check_mir_post.rs). They report while they walk through the log; what is reported
// is added behind it and keeps what they walk through.
ghost use Rattle.std.specs.Prelude.{◌≡◌, ◌-◌, [], ◌∷◌, map};
ghost use Rattle.definition_log.specs.meaning.Record.{kind_of};
ghost use Rattle.definition_log.specs.machine.ChainLeft.{walk_left};
ghost use Rattle.definition_log.specs.meaning.ReadBack.{name_span_at, binding_at};
ghost use Rattle.making.specs.meaning.State.{State, emit};
ghost use Rattle.paths_numbers.specs.meaning.Lists.{any};
ghost use Rattle.post_checks.specs.meaning.Post.{duplicates_of, duplicate_labels, check_directives, post_checks};
ghost use Rattle.resolving.specs.machine.Lowers.{Lowers};
ghost use Rattle.post_checks.specs.machine.Checks.{Reports, headers_of, header_code, code_report, headers_after};
ghost use Rattle.post_checks.specs.machine.Checks.{has_label, has_path, again, is_reported, binding_report, label_reports};

use crate::check_phandles::check_phandles;
use definition_log::chain::{Walk, chain_of_most};
use definition_log::kinds::{DELETED_PROPERTY, NODE, PLUGIN};
use definition_log::parts::{name_span_of, span_of};
use definition_log::record::{Log, kind_of};
use making::ctx::LowerCtx;
use making::place::{PathAt, first_place};
use making::recs::NO_SPAN;
use paths_numbers::codes::{BEFORE_VERSION, DUPLICATE_LABEL, PLUGIN_MISPLACED, VERSION_LATE};
use paths_numbers::text::equals;

// Directive order: how far the directives at the head of a chain of definitions go.
#[derive(Clone, Copy, Debug, PartialEq, Eq)]
pub enum Headers {
    // No version directive came: nothing, or plugin directives alone.
    NoVersion,
    // A version directive in its place came last, so that a plugin directive may follow.
    AfterVersion,
    // A plugin directive came last, and a version directive before it.
    AfterPlugin,
    // A definition that is no directive came.
    Ended,
}

// Runs the checks, in this order.
pub fn check_mir_post(out: &mut [u32], bytes: &mut [u8], ctx: LowerCtx) -> LowerCtx
    ensures { Lowers ctx result out.old bytes.old out.new bytes.new
        (λ (s : State). emit (post_checks s) s) }
{
    let labels = check_duplicate_labels(out, bytes, ctx);
    let phandles = check_phandles(out, bytes, labels);
    check_directives(out, bytes, phandles)
}

// Reports labels that are still bound at more than one path.
// kept: check_bindings has this loop too: four lines, whose one form takes a closure and a record of laws on what was passed, for two uses.
pub fn check_duplicate_labels(out: &mut [u32], bytes: &mut [u8], ctx: LowerCtx) -> LowerCtx
    ensures { Lowers ctx result out.old bytes.old out.new bytes.new
        (λ (s : State). emit (duplicate_labels [] s.binds) s) }
{
    let whole = Walk::new(out, ctx.binds.first);
    let mut made = ctx;
    let mut walk = whole;
    while let Some(r) = walk.step(out) {
        made = check_label(out, bytes, made, passed(whole, walk), r, walk);
    }
    made
}

// What a walk passed before the record that it came to last, by all of it and by the rest of it.
fn passed(whole: Walk, rest: Walk) -> Walk
    ensures { result ≡ record { next = whole.next; left = whole.left - rest.left - 1 } }
{
    Walk {
        next: whole.next,
        left: whole.left.saturating_sub(rest.left).saturating_sub(1),
    }
}

// The reports on the label of binding `r`, which the bindings `before` precede and the rest of a walk follows:
// none where one of those before it has the label.
fn check_label(
    out: &mut [u32],
    bytes: &mut [u8],
    ctx: LowerCtx,
    before: Walk,
    r: u32,
    rest: Walk,
) -> LowerCtx
    ensures { Reports ctx result out.old bytes.old out.new bytes.new
        (r ∷ walk_left out.old rest)
        (label_reports (binding_at out.old bytes.old r)
        (map (binding_at out.old bytes.old) (walk_left out.old before))
        (map (binding_at out.old bytes.old) (walk_left out.old rest))) }
{
    if binds_label(Log { words: out, bytes }, before, r) {
        return ctx;
    }
    check_bindings(out, bytes, ctx, r, rest)
}

// The reports on the bindings behind a label's first one, which are the rest of a walk.
fn check_bindings(
    out: &mut [u32],
    bytes: &mut [u8],
    ctx: LowerCtx,
    first: u32,
    rest: Walk,
) -> LowerCtx
    ensures { Reports ctx result out.old bytes.old out.new bytes.new
        (first ∷ walk_left out.old rest)
        (duplicates_of (binding_at out.old bytes.old first)
        ((binding_at out.old bytes.old first).path ∷ [])
        (map (binding_at out.old bytes.old) (walk_left out.old rest))) }
{
    let mut made = ctx;
    let mut walk = rest;
    while let Some(r) = walk.step(out) {
        made = check_binding(out, bytes, made, first, passed(rest, walk), r);
    }
    made
}

// The report on binding `r`, which the label's first binding and those `between` precede: none where it has
// another label, or a path seen before.
fn check_binding(
    out: &mut [u32],
    bytes: &mut [u8],
    ctx: LowerCtx,
    first: u32,
    between: Walk,
    r: u32,
) -> LowerCtx
    ensures { Reports ctx result out.old bytes.old out.new bytes.new (r ∷ [])
        (binding_report (binding_at out.old bytes.old first) (binding_at out.old bytes.old r)
        (map (binding_at out.old bytes.old) (walk_left out.old between))) }
{
    if is_reported(Log { words: out, bytes }, first, between, r) {
        let span = span_of(out, r);
        let earlier = span_of(out, first);
        let label = first_place(out, r);
        return ctx.emit_copied(out, bytes, DUPLICATE_LABEL, span, earlier, label);
    }
    ctx
}

// Whether there is a report on it.
fn is_reported(log: Log<'_>, first: u32, between: Walk, r: u32) -> bool
    ensures { result ≡ is_reported (binding_at log.entry.words.now log.entry.bytes.now first)
        (binding_at log.entry.words.now log.entry.bytes.now r) (map (binding_at log.entry.words.now log.entry.bytes.now)
        (walk_left log.entry.words.now between)) }
{
    has_label(log, first, r) && !has_path(log, first, r) && !binds_again(log, between, r)
}

// Whether one of the bindings of a walk has the label of binding `r`.
fn binds_label(log: Log<'_>, walk: Walk, r: u32) -> bool
    ensures { result ≡ any (has_label (binding_at log.entry.words.now log.entry.bytes.now r))
        (map (binding_at log.entry.words.now log.entry.bytes.now) (walk_left log.entry.words.now walk)) }
{
    chain_of_most(log.words, walk.next, walk.left).any(|x| has_label(log, x, r))
}

// Whether one of them has its label and its path.
fn binds_again(log: Log<'_>, walk: Walk, r: u32) -> bool
    ensures { result ≡ any (again (binding_at log.entry.words.now log.entry.bytes.now r))
        (map (binding_at log.entry.words.now log.entry.bytes.now) (walk_left log.entry.words.now walk)) }
{
    chain_of_most(log.words, walk.next, walk.left).any(|x| has_label(log, x, r)
        && has_path(log, x, r))
}

// Whether binding `x` has the label of binding `r`.
fn has_label(log: Log<'_>, x: u32, r: u32) -> bool
    ensures { result ≡ has_label (binding_at log.entry.words.now log.entry.bytes.now r)
        (binding_at log.entry.words.now log.entry.bytes.now x) }
{
    equals(log.first_text(r), log.first_text(x))
}

// Whether it has its path.
fn has_path(log: Log<'_>, x: u32, r: u32) -> bool
    ensures { result ≡ has_path (binding_at log.entry.words.now log.entry.bytes.now r)
        (binding_at log.entry.words.now log.entry.bytes.now x) }
{
    equals(log.second_text(r), log.second_text(x))
}

// Reports version and plugin directives out of order, and a definition before the version.
pub fn check_directives(out: &mut [u32], bytes: &mut [u8], ctx: LowerCtx) -> LowerCtx
    ensures { Lowers ctx result out.old bytes.old out.new bytes.new
        (λ (s : State). emit (check_directives s.defs) s) }
{
    let mut made = ctx;
    let mut headers = Headers::NoVersion;
    let mut walk = Walk::new(out, ctx.defs.first);
    while let Some(r) = walk.step(out) {
        let kind = kind_of(out, r);
        made = check_directive(out, bytes, made, r, headers);
        headers = next_headers(kind, headers);
    }
    made
}

// The report on a definition, if there is one.
fn check_directive(
    out: &mut [u32],
    bytes: &mut [u8],
    ctx: LowerCtx,
    r: u32,
    headers: Headers,
) -> LowerCtx
    ensures { Reports ctx result out.old bytes.old out.new bytes.new (r ∷ [])
        (code_report (header_code (kind_of out.old r) (headers_of headers)) (name_span_at out.old r)) }
{
    let Some(code) = header_code(kind_of(out, r), headers) else {
        return ctx;
    };
    let span = name_span_of(out, r);
    ctx.emit_copied(out, bytes, code, span, NO_SPAN, PathAt::EMPTY)
}

// The code that a definition of a kind reports, if it reports one.
fn header_code(kind: u32, headers: Headers) -> Option<u32>
    ensures { result ≡ header_code kind (headers_of headers) }
{
    match (kind, headers) {
        (NODE..=DELETED_PROPERTY, Headers::NoVersion) => Some(BEFORE_VERSION),
        (NODE..=DELETED_PROPERTY, _) => None,
        (PLUGIN, Headers::AfterVersion) => None,
        (PLUGIN, _) => Some(PLUGIN_MISPLACED),
        (_, Headers::Ended) => Some(VERSION_LATE),
        _ => None,
    }
}

// What is known of the headers after a definition of a kind: a late version directive allows nothing.
fn next_headers(kind: u32, headers: Headers) -> Headers
    ensures { headers_of result ≡ headers_after kind (headers_of headers) }
{
    match (kind, headers) {
        (NODE..=DELETED_PROPERTY, _) | (_, Headers::Ended) => Headers::Ended,
        (PLUGIN, Headers::NoVersion) => Headers::NoVersion,
        (PLUGIN, _) => Headers::AfterPlugin,
        _ => Headers::AfterVersion,
    }
}
