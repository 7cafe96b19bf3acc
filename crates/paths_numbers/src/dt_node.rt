// What dt_node.rs makes of a parent's path and a name.
ghost use Rattle.std.specs.Prelude.{◌≡◌, ◌+◌, ◌≤◌, length, slice_index};
ghost use Rattle.paths_numbers.specs.meaning.Path.{root, with_unit, joined_path, joined_len, at_most, largest_usize, built_answer};
ghost use Rattle.paths_numbers.specs.meaning.Path.{built_out, at_or_under};
ghost use Rattle.paths_numbers.specs.machine.Limits.{stem};
ghost use Rattle.paths_numbers.specs.meaning.Text.{same, begins, written};

use crate::mir::is_root;
use crate::text::put;

// The path of a parent and a name. The name's unit address is empty where there is none.
#[derive(Clone, Copy)]
pub struct Joined<'a> {
    pub parent: &'a [u8],
    pub name: &'a [u8],
    pub unit: &'a [u8],
}

// The length of the path of a parent and a name, or the largest usize where it is longer.
pub fn path_len(path: Joined<'_>) -> usize
    ensures { result ≡ joined_len path.entry.parent.now path.entry.name.now path.entry.unit.now }
{
    if name_is_root(path.name, path.unit) {
        return 1;
    }
    before_slash(path.parent)
        .saturating_add(1)
        .saturating_add(name_len(path.name, path.unit))
}

// The bytes of a parent's path that stand before the "/" in front of a name.
fn before_slash(parent: &[u8]) -> usize
    ensures { result ≡ length (stem parent.now) }
{
    if is_root(parent) {
        return 0; // its "/" is the one in front of the name
    }
    parent.len()
}

// Whether a name is "/".
fn name_is_root(name: &[u8], unit: &[u8]) -> bool
    ensures { result ≡ same (with_unit name.now unit.now) root }
{
    unit.is_empty() && is_root(name)
}

// The length of a name with its unit address, or the largest usize where it is longer.
fn name_len(name: &[u8], unit: &[u8]) -> usize
    ensures { result ≡ at_most largest_usize (length (with_unit name.now unit.now)) }
{
    if unit.is_empty() {
        return name.len();
    }
    name.len().saturating_add(1).saturating_add(unit.len())
}

// The byte of the path of a parent and a name at an index, 0 behind its end.
pub fn path_byte(path: Joined<'_>, i: usize) -> u8
    ensures { result ≡ slice_index (joined_path path.entry) i }
{
    if name_is_root(path.name, path.unit) {
        return if i == 0 { b'/' } else { 0 };
    }
    let k = before_slash(path.parent);
    if i < k {
        return path.parent[i];
    }
    if i == k {
        return b'/';
    }
    name_byte(path.name, path.unit, i - k - 1)
}

// The byte of a name with its unit address at an index, 0 behind its end.
fn name_byte(name: &[u8], unit: &[u8], i: usize) -> u8
    ensures { result ≡ slice_index (with_unit name.now unit.now) i }
{
    if i < name.len() {
        return name[i];
    }
    if unit.len() == 0 {
        return 0;
    }
    let j = i - name.len();
    if j == 0 {
        return b'@';
    }
    if j - 1 < unit.len() {
        return unit[j - 1];
    }
    0
}

// Writes the path of a parent and a name into `out` from `at` on.
pub fn build_path(path: Joined<'_>, out: &mut [u8], at: usize) -> Option<usize>
    ensures result_value { result ≡ built_answer (joined_path path.entry) (length out.old) at }
    ensures out_after { out.new ≡ built_out (joined_path path.entry) out.old at }
{
    let n = path_len(path);
    let room = out.len().checked_sub(at)?;
    if room < n {
        return None;
    }
    write_path(path, out, at);
    Some(n)
}

// Writes the path of a parent and a name.
fn write_path(path: Joined<'_>, out: &mut [u8], at: usize)
    requires { at + length (joined_path path) ≤ length out.old }
    ensures { out.new ≡ written out.old at (joined_path path.entry) }
{
    if name_is_root(path.name, path.unit) {
        put(b"/", out, at);
        return;
    }
    let k = before_slash(path.parent);
    put(&path.parent[..k], out, at);
    put(b"/", out, at + k);
    write_name(path.name, path.unit, out, at + k + 1);
}

// Writes a name with its unit address.
fn write_name(name: &[u8], unit: &[u8], out: &mut [u8], at: usize)
    requires { at + length (with_unit name.now unit.now) ≤ length out.old }
    ensures { out.new ≡ written out.old at (with_unit name.now unit.now) }
{
    put(name, out, at);
    if unit.is_empty() {
        return;
    }
    let sign = at + name.len();
    put(b"@", out, sign);
    put(unit, out, sign + 1);
}

// Whether a path is that of a parent and a name.
pub fn is_path(this: &[u8], path: Joined<'_>) -> bool
    ensures { result ≡ same this.now (joined_path path.entry) }
{
    this.len() == path_len(path) && begins_with_path(this, path)
}

// Whether a path lies at or under that of a parent and a name.
pub fn lies_under_path(this: &[u8], path: Joined<'_>) -> bool
    ensures { result ≡ at_or_under this.now (joined_path path.entry) }
{
    if !begins_with_path(this, path) {
        return false;
    }
    match this.get(path_len(path)) {
        None => true,
        Some(next) => path_is_root(path) || *next == b'/',
    }
}

// Whether the path of a parent and a name lies at or under another.
pub fn path_lies_under(path: Joined<'_>, base: &[u8]) -> bool
    ensures { result ≡ at_or_under (joined_path path.entry) base.now }
{
    if !path_begins_with(path, base) {
        return false;
    }
    let n = base.len();
    if path_len(path) == n {
        return true;
    }
    is_root(base) || path_byte(path, n) == b'/'
}

// Whether the path of a parent and a name is "/".
fn path_is_root(path: Joined<'_>) -> bool
    ensures { result ≡ same (joined_path path.entry) root }
{
    path_len(path) == 1
}

// Whether a path begins with that of a parent and a name.
fn begins_with_path(this: &[u8], path: Joined<'_>) -> bool
    ensures { result ≡ begins this.now (joined_path path.entry) }
{
    let n = path_len(path);
    n <= this.len() && has_front(path, &this[..n])
}

// Whether the path of a parent and a name begins with another.
fn path_begins_with(path: Joined<'_>, base: &[u8]) -> bool
    ensures { result ≡ begins (joined_path path.entry) base.now }
{
    base.len() <= path_len(path) && has_front(path, base)
}

// The same of one that is no longer.
fn has_front(path: Joined<'_>, front: &[u8]) -> bool
    requires { length front.now ≤ length (joined_path path) }
    ensures { result ≡ begins (joined_path path.entry) front.now }
{
    front
        .iter()
        .enumerate()
        .all(|(i, b)| *b == path_byte(path, i))
}
