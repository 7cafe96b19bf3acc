// The sample as it is read, and what came of the comparison so far.
use crate::recorded::Sample;
use std::io;

// What differences are printed by, what is left of the sample, the number of the case, from 1, and how many fields were compared and were
// different.
#[derive(Drop)]
pub struct Tally<'a, R: Print> {
    pub rt: &'a R,
    pub sample: Sample<'a>,
    pub case: u64,
    pub compared: u64,
    pub different: u64,
}

impl<'a, R: Print> Tally<'a, R> {
    // Nothing compared yet.
    pub fn new(rt: &'a R, sample: Sample<'a>) -> Tally<'a, R> {
        Tally {
            rt,
            sample,
            case: 0,
            compared: 0,
            different: 0,
        }
    }

    // The next case.
    pub fn next_case(&mut self) {
        self.case = self.case.saturating_add(1);
    }

    // Compares a number with the next one that is recorded.
    pub fn number(&mut self, ours: u32, what: &str) -> io::Result<()> {
        let same = self.sample.number() == ours;
        self.noted(same, what)
    }

    // Compares a text with the next one that is recorded.
    pub fn text(&mut self, ours: &[u8], what: &str) -> io::Result<()> {
        let same = self.sample.text() == ours;
        self.noted(same, what)
    }

    // One field more, which is the same or is printed as different.
    pub fn noted(&mut self, same: bool, what: &str) -> io::Result<()> {
        if !same {
            print_difference(self.rt, self.case, what)?;
            self.different = self.different.saturating_add(1);
        }
        self.compared = self.compared.saturating_add(1);
        Ok(())
    }

    // Prints how many there were in all.
    pub fn print_total(&self, cases: u32) -> io::Result<()> {
        let compared = self.compared;
        let different = self.different;
        println!(self.rt;
            "{cases} cases replayed, {compared} fields compared, {different} different"
        )
    }
}

// Prints what is different, and in which case.
fn print_difference<R: Print>(rt: &R, case: u64, what: &str) -> io::Result<()> {
    println!(rt; "case {case}: {what}")
}
