// Where a path stands in the bytes of a log in the making.
ghost use Rattle.std.specs.Prelude.{◌≡◌, ◌<◌};
ghost use Rattle.making.specs.machine.PathPlaces.{placed_in, path_in, settled};

use definition_log::layout;
use definition_log::record::out_field;

// A path: "/", or these bytes.
#[derive(Clone, Copy, Debug, PartialEq, Eq)]
pub enum PathAt {
    Root,
    Bytes { start: u32, size: u32 },
}

impl PathAt {
    // The empty path.
    pub const EMPTY: PathAt = PathAt::Bytes { start: 0, size: 0 };

    // The same, or the empty path where its bytes do not lie among those in use.
    // kept: no Option, since `text` and `write_path` both read the empty path there, and `write_path` copies by the place and not by a
    // slice.
    pub(crate) fn settle(self, used: u32, bytes: &[u8]) -> PathAt
        ensures { result ≡ settled used bytes.now self }
    {
        let PathAt::Bytes { start, size } = self else {
            return self;
        };
        let end = (start as usize) + (size as usize);
        if end <= (used as usize) && end <= bytes.len() {
            return self;
        }
        PathAt::EMPTY
    }

    // The path that is read there.
    pub fn text(self, used: u32, bytes: &[u8]) -> &[u8]
        ensures { result.now ≡ path_in used bytes.now self }
    {
        match self.settle(used, bytes) {
            PathAt::Root => b"/",
            PathAt::Bytes { start, size } => {
                &bytes[(start as usize)..(start as usize) + (size as usize)]
            }
        }
    }
}

// The place of a record's first text: a definition's path, a label.
pub fn first_place(out: &[u32], r: u32) -> PathAt
    ensures { result ≡ placed_in out.now r 2 }
{
    placed_in(out, r, layout::TEXT_START)
}

// The place of its second text: a binding's path, a reference's.
pub fn second_place(out: &[u32], r: u32) -> PathAt
    ensures { result ≡ placed_in out.now r 4 }
{
    placed_in(out, r, layout::SECOND_START)
}

// The place of a text, whose start is word `i` of a record, and whose length is the next.
fn placed_in(out: &[u32], r: u32, i: u32) -> PathAt
    requires { i < 15 }
    ensures { result ≡ placed_in out.now r i }
{
    PathAt::Bytes {
        start: out_field(out, r, i),
        size: out_field(out, r, i + 1),
    }
}
