// What mir.rs asks of paths.
ghost use Rattle.std.specs.Prelude.{◌≡◌, false, if◌then◌else◌, ◌==◌, nat_eq};
ghost use Rattle.paths_numbers.specs.meaning.Byte.{slash};
ghost use Rattle.paths_numbers.specs.meaning.Path.{at_or_under, stripped, root, components, good_path};
ghost use Rattle.paths_numbers.specs.meaning.Text.{same};

use crate::text::starts_with;

// Whether `this` lies at or under `base`: whether stripping finds anything.
pub fn lies_under(this: &[u8], base: &[u8]) -> bool
    ensures { result ≡ at_or_under this.now base.now }
{
    if is_root(base) {
        return this.starts_with(b"/");
    }
    if !starts_with(this, base) {
        return false;
    }
    match this.get(base.len()) {
        None => true,
        Some(next) => *next == b'/',
    }
}

// The end of `this` behind `base`, or its empty end where `this` does not lie at or under `base`.
pub fn strip_base<'a>(this: &'a [u8], base: &[u8]) -> &'a [u8]
    ensures { result.now ≡ stripped this.now base.now }
{
    let end = this.len();
    if !lies_under(this, base) || end == base.len() {
        return &this[end..];
    }
    if is_root(base) {
        return this;
    }
    &this[base.len()..]
}

// Whether a path is "/".
#[tactic(auto, using(crate::proofs::Texts::one_byte_steps))]
pub fn is_root(path: &[u8]) -> bool
    ensures { result ≡ same path.now root }
{
    matches!(path, [b'/'])
}

// Whether a path has row 9's form: empty, "/", or "/" before each of its nonempty components.
pub fn good_path(path: &[u8]) -> bool
    ensures { result ≡ good_path path.now }
{
    match path.first() {
        None => true,
        Some(first) => is_root(path) || *first == b'/' && has_components(path),
    }
}

// Whether nonempty components follow each other, each behind a "/". The loop has no way out of its
// middle, so that it is compiled to compare many bytes at a time.
// kept: indices; over `windows`, `array_windows` or `zip` it took 1.3 to 9 times as long on 60 to 1,000 bytes.
pub fn has_components(path: &[u8]) -> bool
    ensures { result ≡ components false path.now }
{
    let mut doubled = false;
    for i in 1..path.len() {
        doubled |= (path[i - 1] == b'/') & (path[i] == b'/');
    }
    match path.last() {
        None => true,
        Some(last) => !doubled && *last != b'/',
    }
}
