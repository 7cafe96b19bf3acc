// An input as it is read: words whose links go up, as rows 1 and 2 leave them, and a text.
ghost use Rattle.std.specs.Prelude.{◌<◌};
ghost use Rattle.input.specs.meaning.Input.{record_count};
ghost use Rattle.input.specs.machine.Linked.{Linked, At};

#[derive(Clone, Copy)]
pub struct Input<'a> {
    pub words: &'a [u32],
    pub text: &'a [u8],
    pub ghost linked: { Linked words.now },
}

// A record of an input, by its number.
#[derive(Clone, Copy)]
pub struct Record<'a> {
    pub input: Input<'a>,
    pub number: u32,
    pub ghost known: { number < record_count input.words.now },
}

// What is left of a chain of its records: the next one, 0 at the end.
#[derive(Clone, Copy)]
pub struct Chain<'a> {
    pub input: Input<'a>,
    pub next: u32,
    pub ghost at: { At input.words.now next },
}
