// What is reported of the input, by the record that a diagnostic speaks of.

// What is reported of a part of the input.
#[derive(Clone, Copy, Debug, PartialEq, Eq)]
pub enum Report {
    Nothing,
    // the record of a macro that is not defined
    Macro(u32),
    // another code, and the record whose span it has
    Code(u32, u32),
}
