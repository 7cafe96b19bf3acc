// Which file a span came from (02, request 3): by the files' start offsets, which the caller lends.
ghost use Rattle.std.specs.Prelude.{◌≡◌, length, ◌≤◌};
ghost use Rattle.files.specs.meaning.Files.{most_files, rises, good_files, file_of};

// The most files that a rack is built from.
pub const MOST_FILES: usize = 16;

// Whether a list of start offsets is a good one: number 14's test.
pub fn good_files(starts: &[u32]) -> bool
    ensures { result ≡ good_files starts.now }
{
    if MOST_FILES < starts.len() {
        return false;
    }
    starts.first() == Some(&0) && does_rise(starts)
}

// Whether each entry is above the one before it.
fn does_rise(starts: &[u32]) -> bool
    ensures { result ≡ rises starts.now }
{
    starts.is_sorted_by(|a, b| a < b)
}

// The files' start offsets, no more than a rack is built from.
#[derive(Clone, Copy)]
pub struct Files<'a> {
    pub starts: &'a [u32],
    pub ghost few: { length starts.now ≤ most_files },
}

impl Files<'_> {
    // The number of the last start that is not above a place.
    pub fn file_of(self, place: u32) -> u32
        ensures { result ≡ file_of self.entry.starts.now place }
    {
        self.starts
            .iter()
            .rposition(|&start| start <= place)
            .unwrap_or(0) as u32
    }
}
