// A body with a log of its own: entered, and left again, dropped or kept as an extension.
ghost use Rattle.std.specs.Prelude.{[]};
ghost use Rattle.definition_log.specs.meaning.Record.{extension_kind};
ghost use Rattle.making.specs.machine.Made.{Told, end_link, child_link, with_ext};
ghost use Rattle.making.specs.machine.Recs.{spanned_rec, target_rec, meant_target, label_in, path_within, ToldPart};
ghost use Rattle.definition_log.specs.machine.Parts.{meant};
ghost use Rattle.making.specs.machine.Represents.{Enters, LeavesDropped, LeavesKept, Newest};

use crate::add::child_link;
use crate::ctx::{Chain, LowerCtx, Rec};
use crate::place::{PathAt, first_place};
use crate::recs::Target;
use crate::text::{NONE, Piece, Text};
use definition_log::kinds::EXTENSION;
use definition_log::parts::Span;

impl LowerCtx {
    // The state for a body; one that is kept adds its extensions to the same chain.
    pub fn enter(self, keeps: bool) -> LowerCtx
        ensures { Enters self result keeps }
    {
        LowerCtx {
            defs: Chain::NONE,
            exts: if keeps { self.exts } else { Chain::NONE },
            part: 0,
            cell: 0,
            ..self
        }
    }

    // After a body that is dropped: what it made is cleared, but for bindings and diagnostics. `outer`
    // is the state before it was entered.
    pub fn leave_dropped(self, words: &mut [u32], bytes: &mut [u8], outer: LowerCtx) -> LowerCtx
        ensures { LeavesDropped self result outer words.old bytes.old words.new bytes.new }
    {
        self.drop_from(words, bytes, outer.records);
        LowerCtx {
            defs: outer.defs,
            exts: outer.exts,
            part: outer.part,
            cell: outer.cell,
            ..self
        }
    }

    // After a body that is kept: an extension whose body it is, with the reference that was not found.
    pub fn leave_kept(
        self,
        words: &mut [u32],
        bytes: &mut [u8],
        outer: LowerCtx,
        span: Span,
        name_span: Span,
        target: Target<'_>,
    ) -> LowerCtx
        ensures { LeavesKept self result outer words.old bytes.old words.new bytes.new
            (meant_target target.entry) (meant span) (meant name_span) }
    {
        let with = self.add_extension(words, bytes, span, name_span);
        let made = with.add_target(words, bytes, self.records, target);
        LowerCtx {
            defs: outer.defs,
            part: outer.part,
            cell: outer.cell,
            ..made
        }
    }

    // The place of the newest definition's path.
    pub fn newest_path(self, words: &[u32]) -> PathAt
        ensures { Newest self words.now result }
    {
        first_place(words, self.defs.last)
    }

    // An extension whose body is the log in hand.
    fn add_extension(
        self,
        words: &mut [u32],
        bytes: &mut [u8],
        span: Span,
        name_span: Span,
    ) -> LowerCtx
        ensures { ToldPart self result words.old bytes.old words.new bytes.new
            (spanned_rec extension_kind 0 self.defs.first span name_span) [] [] (end_link self.exts) with_ext }
    {
        let rec = Rec {
            kind: EXTENSION,
            n: 0,
            m: self.defs.first,
            span,
            name_span,
        };
        let made = self.make(words, bytes, rec, NONE, NONE, self.exts.end_link());
        LowerCtx {
            exts: made.exts.grown(made.short, self.records),
            ..made
        }
    }

    // The reference below extension `owner`.
    fn add_target(
        self,
        words: &mut [u32],
        bytes: &mut [u8],
        owner: u32,
        target: Target<'_>,
    ) -> LowerCtx
        ensures { Told self result words.old bytes.old words.new bytes.new
            (target_rec target.entry.kind) (label_in target.entry.kind target.entry.label.now)
            (path_within target.entry.kind target.entry.path.now) (child_link owner 0) }
    {
        let first = Text::Whole(Piece::Given(target.label_of()));
        let second = Text::Whole(Piece::Given(target.path_of()));
        self.make(
            words,
            bytes,
            target.rec(),
            first,
            second,
            child_link(owner, 0),
        )
    }
}
