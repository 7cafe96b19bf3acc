// Which paths a path with unit addresses left out may mean. Such a path is given by a parent and a name, as
// the paths below a label are.
ghost use Rattle.std.specs.Prelude.{◌≡◌, true, [], ◌∷◌, ◌++◌, MatchOption};
ghost use Rattle.paths_numbers.specs.meaning.Byte.{slash};
ghost use Rattle.paths_numbers.specs.meaning.Path.{joined, components};
ghost use Rattle.short_paths.specs.meaning.Short.{component_matches, may_mean, has_components};
ghost use Rattle.short_paths.specs.machine.Front.{front_of, Matched, Unmatched};

use paths_numbers::mir;
use paths_numbers::mir::{good_path, is_root};
use paths_numbers::phandle::first_slash;
use paths_numbers::text::starts_with;

// Whether the path of a parent and a name may mean `full`.
pub fn may_mean(parent: &[u8], name: &[u8], full: &[u8]) -> bool
    ensures { result ≡ may_mean (front_of parent.now ++ slash ∷ name.now) full.now }
{
    let Some(end) = match_front(front(parent), full) else {
        return false;
    };
    let Some((_, rest)) = end.split_first() else {
        return false;
    };
    match match_front(name, rest) {
        None => false,
        Some(end) => end.is_empty(),
    }
}

// Whether the path of a parent and a name has row 9's form and components.
pub fn has_components(parent: &[u8], name: &[u8]) -> bool
    ensures { result ≡ has_components (joined parent.now name.now []) }
{
    if is_root(name) {
        return false;
    }
    good_path(parent) && holds_components(name)
}

// Whether a name is nonempty components with a "/" between them.
fn holds_components(name: &[u8]) -> bool
    ensures { result ≡ components true name.now }
{
    match name.first() {
        None => false,
        Some(first) => *first != b'/' && mir::has_components(name),
    }
}

// What of a parent stands before the "/" in front of a name: nothing of "/".
fn front(parent: &[u8]) -> &[u8]
    ensures { result.now ≡ front_of parent.now }
{
    if is_root(parent) {
        return &[];
    }
    parent
}

// What stands in `full` behind as many components as `path` has, if these match.
fn match_front<'a>(path: &[u8], full: &'a [u8]) -> Option<&'a [u8]>
    ensures { MatchOption result (Unmatched path.now full.now) (λ rest. Matched path.now full.now rest.now) }
{
    let mut left = path;
    let mut other = full;
    'components: loop {
        let (c, behind) = left.split_at(first_slash(left));
        let (d, rest) = other.split_at(first_slash(other));
        if !component_matches(c, d) {
            return None;
        }
        let Some((_, next)) = behind.split_first() else {
            return Some(rest);
        };
        left = next;
        (_, other) = rest.split_first()?;
    }
}

// Whether a component matches another: it is the same, or has no "@" and is the other before its first "@".
pub fn component_matches(c: &[u8], d: &[u8]) -> bool
    ensures { result ≡ component_matches c.now d.now }
{
    if !starts_with(d, c) {
        return false;
    }
    match d.get(c.len()) {
        None => true,
        Some(next) => *next == b'@' && !c.contains(&b'@'),
    }
}
