// The codes of diagnostics, by 01's numbers.
// kept: ways to fail are enums, which give these numbers by `Code`. What writes a code into a log is public, takes any number and may not
// ask more; an enum of the codes would need a second table, back to the same 27 numbers.
ghost use Rattle.std.specs.Prelude.{◌≡◌, ℕ};

// A way to fail that has a code.
pub trait Code {
    // 01's number of it.
    ghost code_of: { Self → ℕ };

    fn code(self) -> u32
        ensures { result ≡ code_of self };
}

pub const PREPROCESSOR: u32 = 1;

pub const INCLUDE: u32 = 2;

pub const LABEL_NOT_FOUND: u32 = 3;

pub const NODE_NOT_FOUND: u32 = 4;

pub const SUBNODE_OUTSIDE: u32 = 5;

pub const ROOT_INSIDE: u32 = 6;

pub const PROPERTY_OUTSIDE: u32 = 7;

pub const DIRECTIVE_AS_VALUE: u32 = 8;

pub const DIRECTIVE_AS_CELL: u32 = 9;

pub const MACRO_UNDEFINED: u32 = 10;

pub const ODD_DIGITS: u32 = 11;

pub const WIDTH_UNSUPPORTED: u32 = 12;

pub const CHARACTER_TOO_LARGE: u32 = 13;

pub const REFERENCE_WIDTH: u32 = 14;

pub const CELL_OUTSIDE: u32 = 15;

pub const NUMBER_EMPTY: u32 = 16;

pub const NOT_A_DIGIT: u32 = 17;

pub const NUMBER_TOO_LARGE: u32 = 18;

pub const NUMBER_TOO_SMALL: u32 = 19;

pub const DUPLICATE_LABEL: u32 = 20;

pub const VERSION_LATE: u32 = 21;

pub const PLUGIN_MISPLACED: u32 = 22;

pub const BEFORE_VERSION: u32 = 23;

pub const OUTSIDE_64_BITS: u32 = 24;

pub const ZERO_DIVISOR: u32 = 25;

pub const SHIFT_AMOUNT: u32 = 26;

// 02, request 5.
pub const NODE_AMBIGUOUS: u32 = 29;
