// What the records that lowering makes say beside their texts.
ghost use Rattle.std.specs.Prelude.{◌≡◌};
ghost use Rattle.std.specs.Int.{from_bool};
ghost use Rattle.making.specs.machine.Recs.{kind_number, omit_number, part_rec, target_rec, label_in, path_within};

use crate::ctx::Rec;
use definition_log::kinds::{
    DELETED_NODE, DELETED_PROPERTY, NODE, PLUGIN, PROPERTY, REFERENCE, VERSION,
};
use definition_log::parts::Span;
use paths_numbers::phandle::MirPhandleTarget;

// The span of a record that has none.
pub const NO_SPAN: Span = Span { from: 0, to: 0 };

// What a definition is; a node with an omit mark is a kind of its own.
#[derive(Clone, Copy, Debug, PartialEq, Eq)]
pub enum DefKind {
    Node,
    OmittedNode,
    Property,
    DeletedNode,
    DeletedProperty,
    Version,
    Plugin,
}

// 01's number of the kind.
impl From<DefKind> for u32 {
    ghost from_gives = { λ kind n. n ≡ kind_number kind };

    fn from(kind: DefKind) -> u32 {
        match kind {
            DefKind::Node | DefKind::OmittedNode => NODE,
            DefKind::Property => PROPERTY,
            DefKind::DeletedNode => DELETED_NODE,
            DefKind::DeletedProperty => DELETED_PROPERTY,
            DefKind::Version => VERSION,
            DefKind::Plugin => PLUGIN,
        }
    }
}

impl DefKind {
    // Whether a definition has an omit mark.
    pub(crate) fn is_omitted(self) -> bool
        ensures { from_bool result ≡ omit_number self }
    {
        matches!(self, DefKind::OmittedNode)
    }
}

impl Rec {
    // A record without spans: a label, a value, a cell, a reference.
    pub(crate) fn part(kind: u32, n: u32, m: u32) -> Rec
        ensures { result ≡ part_rec kind n m }
    {
        Rec {
            kind,
            n,
            m,
            span: NO_SPAN,
            name_span: NO_SPAN,
        }
    }
}

// A reference as it is made: its kind, and the label and the path of which it names one or both.
#[derive(Clone, Copy, Debug, PartialEq, Eq)]
pub struct Target<'a> {
    pub kind: MirPhandleTarget,
    pub label: &'a [u8],
    pub path: &'a [u8],
}

impl<'a> Target<'a> {
    // Its record.
    pub(crate) fn rec(self) -> Rec
        ensures { result ≡ target_rec self.entry.kind }
    {
        Rec::part(REFERENCE, u32::from(self.kind), 0)
    }

    // The label that it names, empty where it names none.
    pub(crate) fn label_of(self) -> &'a [u8]
        ensures { result.now ≡ label_in self.entry.kind self.entry.label.now }
    {
        match self.kind {
            MirPhandleTarget::Label | MirPhandleTarget::LabelPath => self.label,
            MirPhandleTarget::Path => b"",
        }
    }

    // The path, likewise.
    pub(crate) fn path_of(self) -> &'a [u8]
        ensures { result.now ≡ path_within self.entry.kind self.entry.path.now }
    {
        match self.kind {
            MirPhandleTarget::Label => b"",
            MirPhandleTarget::LabelPath | MirPhandleTarget::Path => self.path,
        }
    }
}
