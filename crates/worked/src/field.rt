// The bytes that a field of a line stands for.
ghost use Rattle.std.specs.Prelude.{◌≤◌};

// The longest field that is read.
pub const FIELD: usize = 256;

// Writes a field's bytes into `out`, as far as it reaches, and returns them.
pub fn unescape<'a>(field: &[u8], out: &'a mut [u8]) -> &'a [u8] {
    let mut rest = field;
    for (n, to) in out.iter_mut().enumerate() {
        let Some((b, behind)) = first_byte(rest) else {
            return first(out, n);
        };
        *to = b;
        rest = behind;
    }
    out
}

// The byte at the start of a field, \xHH for any, and the rest of the field.
fn first_byte(field: &[u8]) -> Option<(u8, &[u8])> {
    match field {
        [b'\\', _, high, low, rest @ ..] => Some((hex(*high) * 16 + hex(*low), rest)),
        [b, rest @ ..] => Some((*b, rest)),
        [] => None,
    }
}

// The value of a hex digit, 0 of another byte.
fn hex(b: u8) -> u8
    ensures { result ≤ 15 }
{
    match b {
        b'0'..=b'9' => b - b'0',
        b'a'..=b'f' => b - b'a' + 10,
        _ => 0,
    }
}

// The first `n` bytes, all of them where there are fewer.
pub fn first(s: &[u8], n: usize) -> &[u8] {
    s.get(..n).unwrap_or(s)
}
