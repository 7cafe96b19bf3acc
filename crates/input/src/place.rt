// Row 4's rules of one record: which kinds stand where, and what W may be.
ghost use Rattle.std.specs.Prelude.{◌≡◌};
ghost use Rattle.input.specs.meaning.Input.{links_by_w};
ghost use Rattle.input.specs.meaning.Place.{kinds_in, fits, child_place, second_place, has_children, is_character, w_fits, fits_alone};
ghost use Rattle.input.specs.machine.RowsPass.{meant_place, place_of, number_of};

use crate::kinds::{
    BYTESTRING, CELL_LIST, CHARACTER, DIRECTIVE, EXPRESSION, INFIX, LABEL, MACRO, NAME, NODE,
    NUMBER, OMIT, PARENTHESIS, PREFIX, PREPROCESSOR, PROPERTY, REFERENCE, SLASH, STRING,
    UNIT_ADDRESS,
};
use paths_numbers::operators::CONDITIONAL;

// Where a record stands: in a chain of items, of a node's parts, ..; no record may stand at `NoPlace`. By number.
#[derive(Clone, Copy, Debug, PartialEq, Eq)]
pub enum Place {
    Items = 1,
    NodeParts = 2,
    PropertyParts = 3,
    DirectiveParts = 4,
    Values = 5,
    Cells = 6,
    Expressions = 7,
    Names = 8,
    Macros = 9,
    NoPlace = 10,
}

// The place of a number.
impl From<u32> for Place {
    ghost from_gives = { λ n place. meant_place place ≡ place_of n };

    fn from(n: u32) -> Place {
        match n {
            1 => Place::Items,
            2 => Place::NodeParts,
            3 => Place::PropertyParts,
            4 => Place::DirectiveParts,
            5 => Place::Values,
            6 => Place::Cells,
            7 => Place::Expressions,
            8 => Place::Names,
            9 => Place::Macros,
            _ => Place::NoPlace,
        }
    }
}

// The number of a place.
impl From<Place> for u32 {
    ghost from_gives = { λ place n. n ≡ number_of (meant_place place) };

    fn from(place: Place) -> u32 {
        place as u32
    }
}

impl Place {
    // The kinds that fit it.
    fn kinds(self) -> &'static [u32]
        ensures { result.now ≡ kinds_in (meant_place self) }
    {
        match self {
            Place::Items => &[NODE, PROPERTY, DIRECTIVE, PREPROCESSOR],
            Place::NodeParts => &[NAME, UNIT_ADDRESS, LABEL, REFERENCE, MACRO, SLASH, OMIT],
            Place::PropertyParts => &[NAME, UNIT_ADDRESS, MACRO],
            Place::DirectiveParts => &[NAME, UNIT_ADDRESS, REFERENCE, MACRO],
            Place::Values => &[
                DIRECTIVE,
                PREPROCESSOR,
                REFERENCE,
                MACRO,
                STRING,
                CELL_LIST,
                BYTESTRING,
            ],
            Place::Cells => &[
                DIRECTIVE,
                PREPROCESSOR,
                REFERENCE,
                MACRO,
                NUMBER,
                CHARACTER,
                EXPRESSION,
            ],
            Place::Expressions => &[MACRO, NUMBER, CHARACTER, PREFIX, PARENTHESIS, INFIX],
            Place::Names => &[NAME, MACRO],
            Place::Macros => &[MACRO],
            Place::NoPlace => &[],
        }
    }
}

// The last W of a directive, of a reference, which is a raw one's, and of a prefix.
const LAST_DIRECTIVE: u32 = 6;

pub const RAW: u32 = 1;

const LAST_PREFIX: u32 = 4;

// What a record says by itself: its kind fits its place, its W its kind, and its span does not end before it starts.
pub fn fits_alone(place: Place, kind: u32, w: u32, start: u32, end: u32) -> bool
    ensures { result ≡ fits_alone (meant_place place) kind w (record { from = start; to = end }) }
{
    if !fits_place(place, kind) {
        return false;
    }
    if !w_fits(kind, w) {
        return false;
    }
    start <= end
}

// Whether a kind fits a place.
fn fits_place(place: Place, kind: u32) -> bool
    ensures { result ≡ fits (meant_place place) kind }
{
    place.kinds().contains(&kind)
}

// Where the children of a kind stand.
pub fn child_place(kind: u32) -> Place
    ensures { meant_place result ≡ child_place kind }
{
    match kind {
        NODE => Place::NodeParts,
        PROPERTY => Place::PropertyParts,
        DIRECTIVE => Place::DirectiveParts,
        UNIT_ADDRESS | LABEL => Place::Names,
        REFERENCE => Place::Macros,
        CELL_LIST => Place::Cells,
        EXPRESSION | PREFIX | PARENTHESIS | INFIX => Place::Expressions,
        _ => Place::NoPlace,
    }
}

// Where the records stand that W leads to.
pub fn second_place(kind: u32) -> Place
    ensures { meant_place result ≡ second_place kind }
{
    match kind {
        NODE => Place::Items,
        PROPERTY => Place::Values,
        _ => Place::NoPlace,
    }
}

// Whether a kind has children.
pub fn has_children(kind: u32) -> bool
    ensures { result ≡ has_children kind }
{
    !child_place(kind).kinds().is_empty()
}

// Whether W is a link.
pub fn links_by_w(kind: u32) -> bool
    ensures { result ≡ links_by_w kind }
{
    kind == NODE || kind == PROPERTY
}

// Whether W is in its list, where it is a number.
fn w_fits(kind: u32, w: u32) -> bool
    ensures { result ≡ w_fits kind w }
{
    match kind {
        DIRECTIVE => 1 <= w && w <= LAST_DIRECTIVE,
        REFERENCE => w <= RAW,
        CHARACTER => is_character(w),
        PREFIX => w <= LAST_PREFIX,
        INFIX => w <= CONDITIONAL,
        _ => w == 0,
    }
}

// Whether a number is a code point that is no surrogate.
fn is_character(w: u32) -> bool
    ensures { result ≡ is_character w }
{
    char::from_u32(w).is_some()
}
