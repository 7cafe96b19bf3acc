// The labels and values of the newest definition, and the cells of its last value.
ghost use Rattle.std.specs.Prelude.{◌≡◌, ◌+◌, ◌*◌, ◌^◌, []};
ghost use Rattle.definition_log.specs.meaning.Contents.{number, reference, string, cell_list, bytestring, phandle};
ghost use Rattle.making.specs.machine.Adding.{in_node, in_property, in_cell_list, add_label, add_value, add_cell};
ghost use Rattle.making.specs.machine.Made.{child_link, with_part, with_last_cell};
ghost use Rattle.making.specs.machine.Recs.{meant_target, ToldPart, StepsBytes};
ghost use Rattle.making.specs.machine.Represents.{StepsIn};

use crate::add::child_link;
use crate::ctx::{LowerCtx, Rec};
use crate::recs::Target;
use crate::text::{Piece, Text};
use definition_log::kinds::{BYTESTRING, CELL_LIST, LABEL, NUMBER, STRING};
use paths_numbers::dt_property::bytestring_len;

impl LowerCtx {
    // A label of a node.
    pub fn add_label(self, words: &mut [u32], bytes: &mut [u8], label: &[u8]) -> LowerCtx
        ensures { StepsIn in_node self result words.old bytes.old words.new bytes.new
            (add_label label.now) }
    {
        self.add_part(words, bytes, Rec::part(LABEL, 0, 0), label, b"")
    }

    // A string of a property.
    pub fn add_string(self, words: &mut [u32], bytes: &mut [u8], text: &[u8]) -> LowerCtx
        ensures { StepsIn in_property self result words.old bytes.old words.new bytes.new
            (add_value (string text.now)) }
    {
        self.add_part(words, bytes, Rec::part(STRING, 0, 0), text, b"")
    }

    // A cell list of a width, before its cells.
    pub fn add_cell_list(self, words: &mut [u32], bytes: &mut [u8], width: u32) -> LowerCtx
        ensures { StepsIn in_property self result words.old bytes.old words.new bytes.new
            (add_value (cell_list width [])) }
    {
        self.add_part(words, bytes, Rec::part(CELL_LIST, width, 0), b"", b"")
    }

    // A reference as a value.
    pub fn add_phandle(self, words: &mut [u32], bytes: &mut [u8], target: Target<'_>) -> LowerCtx
        ensures { StepsIn in_property self result words.old bytes.old words.new bytes.new
            (add_value (phandle (meant_target target.entry))) }
    {
        self.add_part(
            words,
            bytes,
            target.rec(),
            target.label_of(),
            target.path_of(),
        )
    }

    // A bytestring of a property; nothing where its text lacks a digit.
    pub fn add_bytestring(self, words: &mut [u32], bytes: &mut [u8], text: &[u8]) -> LowerCtx
        ensures { StepsBytes self result words.old bytes.old words.new bytes.new
            text.now }
    {
        match bytestring_len(text) {
            Err(_) => self,
            Ok(size) => {
                let link = child_link(self.defs.last, self.part);
                let made = self.make_bytestring(
                    words,
                    bytes,
                    Rec::part(BYTESTRING, 0, 0),
                    text,
                    size,
                    link,
                );
                made.with_part(self.records)
            }
        }
    }

    // A number in a cell list, by its two words.
    pub fn add_number(self, words: &mut [u32], bytes: &mut [u8], low: u32, high: u32) -> LowerCtx
        ensures { StepsIn in_cell_list self result words.old bytes.old words.new bytes.new
            (add_cell (number (low + high * 2 ^ 32))) }
    {
        self.add_cell(words, bytes, Rec::part(NUMBER, low, high), b"", b"")
    }

    // A reference in a cell list.
    pub fn add_reference(self, words: &mut [u32], bytes: &mut [u8], target: Target<'_>) -> LowerCtx
        ensures { StepsIn in_cell_list self result words.old bytes.old words.new bytes.new
            (add_cell (reference (meant_target target.entry))) }
    {
        self.add_cell(
            words,
            bytes,
            target.rec(),
            target.label_of(),
            target.path_of(),
        )
    }

    // A part of the newest definition.
    // kept: beside `add_cell`, which differs in the link and in what is counted: one of both would be handed these by each of six callers.
    fn add_part(
        self,
        words: &mut [u32],
        bytes: &mut [u8],
        rec: Rec,
        first: &[u8],
        second: &[u8],
    ) -> LowerCtx
        ensures { ToldPart self result words.old bytes.old words.new bytes.new rec
            first.now second.now (child_link self.defs.last self.part) with_part }
    {
        let link = child_link(self.defs.last, self.part);
        let made = self.make(
            words,
            bytes,
            rec,
            Text::Whole(Piece::Given(first)),
            Text::Whole(Piece::Given(second)),
            link,
        );
        made.with_part(self.records)
    }

    // A cell of its last part.
    fn add_cell(
        self,
        words: &mut [u32],
        bytes: &mut [u8],
        rec: Rec,
        first: &[u8],
        second: &[u8],
    ) -> LowerCtx
        ensures { ToldPart self result words.old bytes.old words.new bytes.new rec
            first.now second.now (child_link self.part self.cell) with_last_cell }
    {
        let link = child_link(self.part, self.cell);
        let made = self.make(
            words,
            bytes,
            rec,
            Text::Whole(Piece::Given(first)),
            Text::Whole(Piece::Given(second)),
            link,
        );
        LowerCtx {
            cell: self.records,
            ..made
        }
    }

    // The state with one part more.
    fn with_part(self, number: u32) -> LowerCtx
        ensures { result ≡ with_part self number }
    {
        LowerCtx {
            part: number,
            cell: 0,
            ..self
        }
    }
}
