// A text of a record that is made: bytes that are given, or a path that the bytes of the log have.
ghost use Rattle.std.specs.Prelude.{◌≡◌, ◌+◌, ◌≤◌, length, take, drop};
ghost use Rattle.paths_numbers.specs.meaning.Text.{written};
ghost use Rattle.paths_numbers.specs.meaning.Path.{joined, joined_path, at_most, largest_usize};
ghost use Rattle.making.specs.machine.PathPlaces.{path_in};
ghost use Rattle.making.specs.machine.Texts.{piece_in, text_said};

use crate::place::PathAt;
use paths_numbers::dt_node::{Joined, build_path, path_len};
use paths_numbers::text::put;

// Bytes that are given, or the path of a place.
#[derive(Clone, Copy, Debug, PartialEq, Eq)]
pub(crate) enum Piece<'a> {
    Given(&'a [u8]),
    At(PathAt),
}

// One of these, or the path of a name with a unit address under a path.
#[derive(Clone, Copy, Debug, PartialEq, Eq)]
pub(crate) enum Text<'a> {
    Whole(Piece<'a>),
    Joined {
        path: PathAt,
        name: Piece<'a>,
        unit: &'a [u8],
    },
}

// No text.
pub(crate) const NONE: Text<'static> = Text::Whole(Piece::Given(b""));

impl<'a> Piece<'a> {
    // Its bytes.
    #[inline(always)]
    fn bytes(self, used: u32, bytes: &'a [u8]) -> &'a [u8]
        ensures { result.now ≡ piece_in used bytes.now self.entry }
    {
        match self {
            Piece::Given(text) => text,
            Piece::At(path) => path.text(used, bytes),
        }
    }
}

impl<'a> Text<'a> {
    // How long it is, or the largest usize where it is longer.
    #[inline(always)]
    pub(crate) fn len(self, used: u32, bytes: &[u8]) -> usize
        ensures { result ≡ at_most largest_usize (length (text_said used bytes.now self.entry)) }
    {
        match self {
            Text::Whole(piece) => piece.bytes(used, bytes).len(),
            Text::Joined { path, name, unit } => path_len(joined_in(used, bytes, path, name, unit)),
        }
    }

    // Writes it from index `at` on, which lies behind the bytes in use.
    #[inline(always)]
    pub(crate) fn write(self, used: u32, bytes: &mut [u8], at: usize)
        requires { (used ≤ at) × (at + length (text_said used bytes.old self) ≤ length bytes.old) }
        ensures { bytes.new ≡ written bytes.old at (text_said used bytes.old self.entry) }
    {
        match self {
            Text::Whole(Piece::Given(text)) => put(text, bytes, at),
            Text::Whole(Piece::At(path)) => write_path(used, bytes, at, path),
            Text::Joined { path, name, unit } => write_joined(used, bytes, at, path, name, unit),
        }
    }
}

// Writes the path of a place.
fn write_path(used: u32, bytes: &mut [u8], at: usize, path: PathAt)
    requires { (used ≤ at) × (at + length (path_in used bytes.old path) ≤ length bytes.old) }
    ensures { bytes.new ≡ written bytes.old at (path_in used bytes.old path) }
{
    match path.settle(used, bytes) {
        PathAt::Root => bytes[at] = b'/',
        PathAt::Bytes { start, size } => copy_on(bytes, start as usize, size as usize, at),
    }
}

// Copies `size` bytes from index `start` to index `at`, which lies behind them.
fn copy_on(bytes: &mut [u8], start: usize, size: usize, at: usize)
    requires { (start + size ≤ at) × (at + size ≤ length bytes.old) }
    ensures { bytes.new ≡ written bytes.old at (take size (drop start bytes.old)) }
{
    // kept: an index, for `copy_within` would have the archive for C ask for `memmove`, which it does without.
    for i in 0..size {
        bytes[at + i] = bytes[start + i];
    }
}

// Writes the path of a name under a path.
fn write_joined(used: u32, bytes: &mut [u8], at: usize, path: PathAt, name: Piece<'_>, unit: &[u8])
    requires { (used ≤ at)
        × (at + length (joined (path_in used bytes.old path) (piece_in used bytes.old name) unit.now) ≤ length bytes.old) }
    ensures { bytes.new ≡ written bytes.old at
        (joined (path_in used bytes.old path) (piece_in used bytes.old name.entry) unit.now) }
{
    let (front, back) = bytes.split_at_mut(at);
    let _ = build_path(joined_in(used, front, path, name, unit), back, 0); // there is room
}

// The path of a name under a path, in its parts.
fn joined_in<'a>(
    used: u32,
    bytes: &'a [u8],
    path: PathAt,
    name: Piece<'a>,
    unit: &'a [u8],
) -> Joined<'a>
    ensures { joined_path result ≡ joined (path_in used bytes.now path) (piece_in used bytes.now name.entry) unit.now }
{
    Joined {
        parent: path.text(used, bytes),
        name: name.bytes(used, bytes),
        unit,
    }
}
