// What lower_phandle of lowering/mod.rs makes of a raw reference text, `&{..}`.
ghost use Rattle.std.specs.Prelude.{◌≡◌, true, false, length, MatchOption};
ghost use Rattle.paths_numbers.specs.meaning.Reference.{is_braced, inner_text, before_slash, target, number_of, label_of, path_of};
ghost use Rattle.paths_numbers.specs.meaning.Reference.{kind_number, NumberNames, target_number};

use slashes::slash::next_slash;

// What a raw reference names, by the names of the Rust's MirPhandleTarget.
#[derive(Clone, Copy, Debug, PartialEq, Eq)]
pub enum MirPhandleTarget {
    Label,
    LabelPath,
    Path,
}

// 01's N of what a reference names.
impl From<MirPhandleTarget> for u32 {
    ghost from_gives = { λ kind n. n ≡ kind_number kind };

    fn from(kind: MirPhandleTarget) -> u32 {
        match kind {
            MirPhandleTarget::Label => 1,
            MirPhandleTarget::LabelPath => 2,
            MirPhandleTarget::Path => 3,
        }
    }
}

// A number that names none.
#[derive(Clone, Copy, Debug, PartialEq, Eq)]
pub struct UnknownTarget;

// What 01's N names.
impl TryFrom<u32> for MirPhandleTarget {
    type Error = UnknownTarget;

    ghost try_from_gives = { NumberNames };

    fn try_from(n: u32) -> Result<MirPhandleTarget, UnknownTarget> {
        match n {
            1 => Ok(MirPhandleTarget::Label),
            2 => Ok(MirPhandleTarget::LabelPath),
            3 => Ok(MirPhandleTarget::Path),
            _ => Err(UnknownTarget),
        }
    }
}

// What a raw reference names; nothing where it cannot be read.
pub fn lower_phandle(raw: &[u8]) -> Option<MirPhandleTarget>
    ensures { target_number result ≡ number_of (target raw.now) }
{
    let inner = inner_text(raw)?;
    match next_slash(inner, 0) {
        None => Some(MirPhandleTarget::Label),
        Some(0) => Some(MirPhandleTarget::Path),
        Some(_) => Some(MirPhandleTarget::LabelPath),
    }
}

// The label that a raw reference names, empty where there is none.
pub fn phandle_label(raw: &[u8]) -> &[u8]
    ensures { result.now ≡ label_of (target raw.now) }
{
    let Some(inner) = inner_text(raw) else {
        return &raw[raw.len()..];
    };
    let k = first_slash(inner);
    &inner[..k]
}

// The path that a raw reference names, empty where there is none.
pub fn phandle_path(raw: &[u8]) -> &[u8]
    ensures { result.now ≡ path_of (target raw.now) }
{
    let Some(inner) = inner_text(raw) else {
        return &raw[raw.len()..];
    };
    match next_slash(inner, 0) {
        None => &inner[inner.len()..],
        Some(0) => inner,
        Some(k) => &inner[k + 1..],
    }
}

// The text between `&{` and `}`; nothing where they are missing.
#[tactic(auto, using(crate::proofs::Braces::braced_steps))]
fn inner_text(raw: &[u8]) -> Option<&[u8]>
    ensures { MatchOption result (is_braced raw.now ≡ false) (λ s. (is_braced raw.now ≡ true) × (s.now ≡ inner_text raw.now)) }
{
    match raw {
        [b'&', b'{', inner @ .., b'}'] => Some(inner),
        _ => None,
    }
}

// The index of the first "/", the length where there is none.
pub fn first_slash(s: &[u8]) -> usize
    ensures { result ≡ length (before_slash s.now) }
{
    next_slash(s, 0).unwrap_or(s.len())
}
