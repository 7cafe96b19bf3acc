// The kinds of output records, by 01's numbers, and what they have.
// kept: numbers, for a caller lends the words of a log, and any number may stand in them.
ghost use Rattle.std.specs.Prelude.{◌≡◌};
ghost use Rattle.definition_log.specs.meaning.Record.{one_of, def_kinds, has_children, has_span, has_name_span};

use crate::lists::one_of;

pub const NODE: u32 = 1;

pub const PROPERTY: u32 = 2;

pub const DELETED_NODE: u32 = 3;

pub const DELETED_PROPERTY: u32 = 4;

pub const VERSION: u32 = 5;

pub const PLUGIN: u32 = 6;

pub const LABEL: u32 = 7;

pub const STRING: u32 = 8;

pub const CELL_LIST: u32 = 9;

pub const BYTESTRING: u32 = 10;

pub const NUMBER: u32 = 11;

pub const REFERENCE: u32 = 12;

pub const EXTENSION: u32 = 13;

pub const BINDING: u32 = 14;

pub const DIAGNOSTIC: u32 = 15;

// Whether a kind is one of definitions.
pub(crate) fn is_def(kind: u32) -> bool
    ensures { result ≡ one_of kind def_kinds }
{
    one_of(
        kind,
        &[
            NODE,
            PROPERTY,
            DELETED_NODE,
            DELETED_PROPERTY,
            VERSION,
            PLUGIN,
        ],
    )
}

// Whether a kind has children.
pub(crate) fn has_children(kind: u32) -> bool
    ensures { result ≡ has_children kind }
{
    one_of(kind, &[NODE, PROPERTY, CELL_LIST, EXTENSION])
}

// Whether a kind has a span.
pub(crate) fn has_span(kind: u32) -> bool
    ensures { result ≡ has_span kind }
{
    is_def(kind) || one_of(kind, &[EXTENSION, BINDING, DIAGNOSTIC])
}

// Whether a kind has a name span.
pub(crate) fn has_name_span(kind: u32) -> bool
    ensures { result ≡ has_name_span kind }
{
    is_def(kind) || one_of(kind, &[EXTENSION, DIAGNOSTIC])
}
