// Words 13 and 14 of a log's records: which file a span came from (02, request 3).
ghost use Rattle.std.specs.Prelude.{◌+◌, ◌*◌, ◌≤◌, ◌<◌, ◌≡◌, length, get_or};
ghost use Rattle.files.specs.meaning.Files.{file_of};
ghost use Rattle.definition_log.specs.meaning.Record.{record_words};
ghost use Rattle.file_words.specs.machine.Put.{FilesPut, record_put};

use definition_log::layout;
use files::files::Files;

// The words of a record that are read and written here, as places in its words.
const SPAN_START: usize = layout::SPAN_START as usize;

const NAME_START: usize = layout::NAME_START as usize;

const FILE: usize = layout::FILE as usize;

const NAME_FILE: usize = layout::NAME_FILE as usize;

// Puts the files' numbers into the first records of a log. All kinds are alike: a record without a span has zeros there,
// and place 0 lies in file 0.
pub fn put_files(words: &mut [u32], records: u32, files: Files<'_>)
    requires { records * record_words ≤ length words.old }
    ensures { FilesPut files.entry.starts.now words.old words.new records }
{
    // kept: an index, since what `chunks_exact_mut` lends leaves no word of it known
    for r in 0..(records as usize) {
        put_record(words, r * layout::RECORD_WORDS, files);
    }
}

// Puts them into the record whose words start at `at`.
fn put_record(words: &mut [u32], at: usize, files: Files<'_>)
    requires { at + record_words ≤ length words.old }
    ensures { words.new ≡ record_put files.entry.starts.now words.old at }
{
    let file = file_at(words, at, SPAN_START, files);
    let name_file = file_at(words, at, NAME_START, files);
    words[at + FILE] = file;
    words[at + NAME_FILE] = name_file;
}

// The number of the file in which the place lies that word `i` of the record at `at` holds.
fn file_at(words: &[u32], at: usize, i: usize, files: Files<'_>) -> u32
    requires { at + i < length words.now }
    ensures { result ≡ file_of files.entry.starts.now (get_or words.now (at + i) 0) }
{
    files.file_of(words[at + i])
}
