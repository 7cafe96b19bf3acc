// Bytes compared and written.
ghost use Rattle.std.specs.Prelude.{◌≡◌, ◌+◌, ◌≤◌, length};
ghost use Rattle.paths_numbers.specs.meaning.Text.{begins, same, written};

// Whether `s` begins with `p`. The last byte is compared first, since paths often differ only there.
// kept: tried with `==`, texts of 8 to 256 bytes that differ only there took 5.2 to 9.7 ns and not 3.0 (docs/DECISIONS.md, 28).
pub fn starts_with(s: &[u8], p: &[u8]) -> bool
    ensures { result ≡ begins s.now p.now }
{
    match p.split_last() {
        None => true,
        Some((last, front)) => s.get(front.len()) == Some(last) && s.starts_with(front),
    }
}

// Whether two texts are the same bytes. `s == t` would compare the last byte last.
pub fn equals(s: &[u8], t: &[u8]) -> bool
    ensures { result ≡ same s.now t.now }
{
    s.len() == t.len() && starts_with(s, t)
}

// Writes a text into `out` from `at` on.
pub fn put(text: &[u8], out: &mut [u8], at: usize)
    requires { at + length text.now ≤ length out.old }
    ensures { out.new ≡ written out.old at text.now }
{
    // kept: an index, for `copy_from_slice` would have the archive for C ask for `memmove`, which it does without.
    for i in 0..text.len() {
        out[at + i] = text[i];
    }
}
