// A path as it is given: whole, or by a parent's path, a name and a unit address.
ghost use Rattle.std.specs.Prelude.{◌≡◌, List, ℕ};
ghost use Rattle.paths_numbers.specs.meaning.Text.{same};
ghost use Rattle.paths_numbers.specs.meaning.Path.{joined_path, at_or_under};

use paths_numbers::dt_node::{Joined, is_path, lies_under_path, path_lies_under};
use paths_numbers::mir::lies_under;
use paths_numbers::text::equals;

// A path, by what queries ask of it.
pub trait PathLike: Copy {
    // The path's bytes.
    ghost path: { Self → List ℕ };

    // Whether a text is this path.
    fn is(self, text: &[u8]) -> bool
        ensures { result ≡ same text.now (path self) };

    // Whether this path lies at or under another.
    fn lies_under(self, base: &[u8]) -> bool
        ensures { result ≡ at_or_under (path self) base.now };

    // Whether another path lies at or under this one.
    fn holds(self, this: &[u8]) -> bool
        ensures { result ≡ at_or_under this.now (path self) };
}

impl PathLike for &[u8] {
    ghost path = { λ p. p.now };

    fn is(self, text: &[u8]) -> bool {
        equals(text, self)
    }

    fn lies_under(self, base: &[u8]) -> bool {
        lies_under(self, base)
    }

    fn holds(self, this: &[u8]) -> bool {
        lies_under(this, self)
    }
}

impl PathLike for Joined<'_> {
    ghost path = { joined_path };

    fn is(self, text: &[u8]) -> bool {
        is_path(text, self)
    }

    fn lies_under(self, base: &[u8]) -> bool {
        path_lies_under(self, base)
    }

    fn holds(self, this: &[u8]) -> bool {
        lies_under_path(this, self)
    }
}
