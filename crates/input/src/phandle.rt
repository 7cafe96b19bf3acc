// References read: what lower_phandle of lowering/mod.rs makes of a reference record.
ghost use Rattle.std.specs.Prelude.{◌≡◌};
ghost use Rattle.input.specs.meaning.Phandle.{plain_target, lower_phandle};
ghost use Rattle.input.specs.machine.PhandleRead.{label_at, path_at};
ghost use Rattle.input.specs.machine.OfRecord.{tree_of, phandle_told, label_in, path_in};

use crate::kinds::MACRO;
use crate::linked::Record;
use crate::place::RAW;
use crate::record::{no_text, number_at, text_at};
use crate::report::Report;
use paths_numbers::phandle::{MirPhandleTarget, phandle_label, phandle_path};

impl<'a> Record<'a> {
    // What a reference record names, by its kind; or what is reported where it names nothing that can be read.
    pub fn lower_phandle(self) -> Result<MirPhandleTarget, Report>
        ensures { phandle_told self.entry result ≡ lower_phandle (tree_of self.entry) }
    {
        if let Some(m) = self.parts().first_of(MACRO) {
            return Err(Report::Macro(m));
        }
        self.plain_target()
    }

    // What a reference record without a macro names.
    fn plain_target(self) -> Result<MirPhandleTarget, Report>
        ensures { phandle_told self.entry result ≡ plain_target (tree_of self.entry) }
    {
        let name = self.text();
        if number_at(self.input.words, self.number) == RAW {
            return paths_numbers::phandle::lower_phandle(name).ok_or(Report::Nothing);
        }
        if name.is_empty() {
            return Err(Report::Nothing);
        }
        Ok(MirPhandleTarget::Label)
    }

    // The label that a reference record names, empty where there is none.
    pub fn label(self) -> &'a [u8]
        ensures { result.now ≡ label_in self.entry }
    {
        phandle_label_at(self.input.words, self.input.text, self.number)
    }

    // The path that a reference record names, empty where there is none.
    pub fn path(self) -> &'a [u8]
        ensures { result.now ≡ path_in self.entry }
    {
        phandle_path_at(self.input.words, self.input.text, self.number)
    }
}

// The same of record r.
pub fn phandle_label_at<'a, 'b>(words: &'b [u32], text: &'a [u8], r: u32) -> &'a [u8]
    ensures { result.now ≡ label_at words.now text.now r }
{
    if number_at(words, r) == RAW {
        return phandle_label(text_at(words, text, r));
    }
    text_at(words, text, r)
}

// And its path.
pub fn phandle_path_at<'a, 'b>(words: &'b [u32], text: &'a [u8], r: u32) -> &'a [u8]
    ensures { result.now ≡ path_at words.now text.now r }
{
    if number_at(words, r) == RAW {
        return phandle_path(text_at(words, text, r));
    }
    no_text(text)
}
