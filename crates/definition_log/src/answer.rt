// What a call answers, by 01's table: what is returned with number 0, or a refusal.
ghost use Rattle.std.specs.Prelude.{◌≡◌};
ghost use Rattle.definition_log.specs.meaning.Answer.{refused, told, told_done};

// The rows of the table, with what they return where that is not 0.
#[derive(Clone, Copy, Debug, PartialEq, Eq)]
pub enum Refusal {
    // Rows 1 to 6, of an input: its size, then the first record with a wrong link, text, kind or name, or below more than 64 links.
    Size,
    Link(u32),
    Text(u32),
    Kind(u32),
    Name(u32),
    Depth(u32),
    // Row 7: the buffers have no room.
    Room,
    // Rows 8 to 10, of a query: the lowest record that breaks a rule of the log, the path, how many records a list has no room for.
    Log(u32),
    Path,
    List(u32),
    // Of a box number (02, request 1): a digit above 9, a length outside 1 to 8, a number too large for its length.
    Digit,
    Length,
    Number,
    // Of the files' starts (02, request 3).
    Files,
    // Of a description's level (02, request 10).
    Level,
}

impl Refusal {
    // Its number in the table.
    pub fn number(self) -> u32
        ensures { result ≡ (refused self).number }
    {
        match self {
            Refusal::Size => 1,
            Refusal::Link(_) => 2,
            Refusal::Text(_) => 3,
            Refusal::Kind(_) => 4,
            Refusal::Name(_) => 5,
            Refusal::Depth(_) => 6,
            Refusal::Room => 7,
            Refusal::Log(_) => 8,
            Refusal::Path => 9,
            Refusal::List(_) => 10,
            Refusal::Digit => 11,
            Refusal::Length => 12,
            Refusal::Number => 13,
            Refusal::Files => 14,
            Refusal::Level => 18,
        }
    }

    // What is returned with it.
    pub fn returned(self) -> u32
        ensures { result ≡ (refused self).returned }
    {
        match self {
            Refusal::Link(r)
            | Refusal::Text(r)
            | Refusal::Kind(r)
            | Refusal::Name(r)
            | Refusal::Depth(r)
            | Refusal::Log(r) => r,
            Refusal::List(count) => count,
            Refusal::Size
            | Refusal::Room
            | Refusal::Path
            | Refusal::Digit
            | Refusal::Length
            | Refusal::Number
            | Refusal::Files
            | Refusal::Level => 0,
        }
    }
}

// The two numbers of an answer, as C and a printed line have them.
#[derive(Clone, Copy, Debug, PartialEq, Eq)]
pub struct Numbers {
    pub number: u32,
    pub returned: u32,
}

impl From<Result<u32, Refusal>> for Numbers {
    ghost from_gives = { λ answer n. n ≡ record { number = (told answer).number; returned = (told answer).returned } };

    fn from(answer: Result<u32, Refusal>) -> Numbers {
        match answer {
            Ok(returned) => Numbers {
                number: 0,
                returned,
            },
            Err(refusal) => Numbers {
                number: refusal.number(),
                returned: refusal.returned(),
            },
        }
    }
}

impl From<Result<(), Refusal>> for Numbers {
    ghost from_gives = { λ answer n. n ≡ record { number = (told_done answer).number; returned = (told_done answer).returned } };

    fn from(answer: Result<(), Refusal>) -> Numbers {
        Numbers::from(answer.map(|()| 0))
    }
}
