// What lowering adds to the log in hand: definitions, bindings and diagnostics. A record's number is
// the count of records before it is made.
ghost use Rattle.std.specs.Prelude.{◌≡◌, [], ◌∷◌};
ghost use Rattle.paths_numbers.specs.meaning.Path.{joined};
ghost use Rattle.making.specs.machine.PathPlaces.{path_in};
ghost use Rattle.making.specs.machine.Texts.{text_said};
ghost use Rattle.making.specs.meaning.State.{define, bind, emit};
ghost use Rattle.making.specs.machine.Made.{child_link};
ghost use Rattle.making.specs.machine.Recs.{bare_def, binding_made, diag_made};
ghost use Rattle.making.specs.machine.Represents.{Steps};
ghost use Rattle.making.specs.machine.Kept.{Keeps};

use crate::ctx::{LowerCtx, Rec};
use crate::place::PathAt;
use crate::recs::{DefKind, NO_SPAN};
use crate::text::{NONE, Piece, Text};
use definition_log::kinds::{BINDING, DIAGNOSTIC};
use definition_log::layout;
use definition_log::parts::Span;

impl LowerCtx {
    // A definition at the path of this name and unit address under a path.
    pub fn define(
        self,
        words: &mut [u32],
        bytes: &mut [u8],
        kind: DefKind,
        span: Span,
        name_span: Span,
        path: PathAt,
        name: &[u8],
        unit: &[u8],
    ) -> LowerCtx
        ensures { Steps self result words.old bytes.old words.new bytes.new
            (define (bare_def kind span name_span (joined (path_in self.bytes bytes.old path) name.now
            unit.now))) }
    {
        let text = Text::Joined {
            path,
            name: Piece::Given(name),
            unit,
        };
        self.add_def(words, bytes, kind, span, name_span, text)
    }

    // A definition at a path: a directive, or a node that is opened again.
    pub fn define_at(
        self,
        words: &mut [u32],
        bytes: &mut [u8],
        kind: DefKind,
        span: Span,
        name_span: Span,
        path: PathAt,
    ) -> LowerCtx
        ensures { Steps self result words.old bytes.old words.new bytes.new
            (define (bare_def kind span name_span (path_in self.bytes bytes.old path))) }
    {
        let text = Text::Whole(Piece::At(path));
        self.add_def(words, bytes, kind, span, name_span, text)
    }

    // A definition at a path that is given as a text: of a reference that names it.
    pub fn define_text(
        self,
        words: &mut [u32],
        bytes: &mut [u8],
        kind: DefKind,
        span: Span,
        name_span: Span,
        path: &[u8],
    ) -> LowerCtx
        ensures { Steps self result words.old bytes.old words.new bytes.new
            (define (bare_def kind span name_span path.now)) }
    {
        let text = Text::Whole(Piece::Given(path));
        self.add_def(words, bytes, kind, span, name_span, text)
    }

    // A binding of a label to a path.
    pub fn bind(
        self,
        words: &mut [u32],
        bytes: &mut [u8],
        label: &[u8],
        path: PathAt,
        span: Span,
    ) -> LowerCtx
        ensures { Steps self result words.old bytes.old words.new bytes.new
            (bind (binding_made label.now (path_in self.bytes bytes.old path) span ∷ [])) }
    {
        let rec = Rec {
            kind: BINDING,
            n: 0,
            m: 0,
            span,
            name_span: NO_SPAN,
        };
        let made = self.make(
            words,
            bytes,
            rec,
            Text::Whole(Piece::Given(label)),
            Text::Whole(Piece::At(path)),
            self.binds.end_link(),
        );
        LowerCtx {
            binds: made.binds.grown(made.short, self.records),
            ..made
        }
    }

    // A diagnostic with a text.
    pub fn emit(
        self,
        words: &mut [u32],
        bytes: &mut [u8],
        code: u32,
        text: &[u8],
        span: Span,
        name_span: Span,
    ) -> LowerCtx
        ensures { Steps self result words.old bytes.old words.new bytes.new
            (emit (diag_made code text.now span name_span ∷ [])) }
    {
        let text = Text::Whole(Piece::Given(text));
        self.add_diag(words, bytes, code, span, name_span, text)
    }

    // A diagnostic whose text is the path of this name and unit address under a path.
    pub fn emit_joined(
        self,
        words: &mut [u32],
        bytes: &mut [u8],
        code: u32,
        span: Span,
        path: PathAt,
        name: &[u8],
        unit: &[u8],
    ) -> LowerCtx
        ensures { Steps self result words.old bytes.old words.new bytes.new
            (emit (diag_made code (joined (path_in self.bytes bytes.old path) name.now unit.now) span
            (record { from = 0; to = 0 }) ∷ [])) }
    {
        let text = Text::Joined {
            path,
            name: Piece::Given(name),
            unit,
        };
        self.add_diag(words, bytes, code, span, NO_SPAN, text)
    }

    // The same, where the name is a text that the log has: a reference's path below a binding's.
    pub fn emit_joined_at(
        self,
        words: &mut [u32],
        bytes: &mut [u8],
        code: u32,
        span: Span,
        path: PathAt,
        name: PathAt,
    ) -> LowerCtx
        ensures steps { Steps self result words.old bytes.old words.new bytes.new
            (emit (diag_made code (joined (path_in self.bytes bytes.old path) (path_in self.bytes bytes.old name)
            []) span (record { from = 0; to = 0 }) ∷ [])) }
        ensures keeps { Keeps self result words.old bytes.old words.new bytes.new }
    {
        let text = Text::Joined {
            path,
            name: Piece::At(name),
            unit: b"",
        };
        self.add_diag(words, bytes, code, span, NO_SPAN, text)
    }

    // A diagnostic whose text is one that the log has: of a binding's label, of a reference.
    pub fn emit_copied(
        self,
        words: &mut [u32],
        bytes: &mut [u8],
        code: u32,
        span: Span,
        name_span: Span,
        text: PathAt,
    ) -> LowerCtx
        ensures steps { Steps self result words.old bytes.old words.new bytes.new
            (emit (diag_made code (path_in self.bytes bytes.old text) span name_span ∷ [])) }
        ensures keeps { Keeps self result words.old bytes.old words.new bytes.new }
    {
        let text = Text::Whole(Piece::At(text));
        self.add_diag(words, bytes, code, span, name_span, text)
    }

    // A definition with a text for its path.
    fn add_def(
        self,
        words: &mut [u32],
        bytes: &mut [u8],
        kind: DefKind,
        span: Span,
        name_span: Span,
        path: Text<'_>,
    ) -> LowerCtx
        ensures { Steps self result words.old bytes.old words.new bytes.new
            (define (bare_def kind span name_span (text_said self.bytes bytes.old path.entry))) }
    {
        let rec = Rec {
            kind: u32::from(kind),
            n: u32::from(kind.is_omitted()),
            m: 0,
            span,
            name_span,
        };
        let made = self.make(words, bytes, rec, path, NONE, self.defs.end_link());
        LowerCtx {
            defs: made.defs.grown(made.short, self.records),
            part: 0,
            cell: 0,
            ..made
        }
    }

    // A diagnostic with a text.
    fn add_diag(
        self,
        words: &mut [u32],
        bytes: &mut [u8],
        code: u32,
        span: Span,
        name_span: Span,
        text: Text<'_>,
    ) -> LowerCtx
        ensures steps { Steps self result words.old bytes.old words.new bytes.new
            (emit (diag_made code (text_said self.bytes bytes.old text.entry) span name_span ∷ [])) }
        ensures keeps { Keeps self result words.old bytes.old words.new bytes.new }
    {
        let rec = Rec {
            kind: DIAGNOSTIC,
            n: code,
            m: 0,
            span,
            name_span,
        };
        let made = self.make(words, bytes, rec, text, NONE, self.diags.end_link());
        LowerCtx {
            diags: made.diags.grown(made.short, self.records),
            ..made
        }
    }
}

// Where the link to the next child of a record stands.
pub(crate) fn child_link(owner: u32, last: u32) -> usize
    ensures { result ≡ child_link owner last }
{
    if last == 0 {
        return (owner as usize) * layout::RECORD_WORDS + layout::CHILD_AT;
    }
    (last as usize) * layout::RECORD_WORDS + layout::NEXT_AT
}
