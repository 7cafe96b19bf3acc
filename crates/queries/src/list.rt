// The list that a caller lends for the answers.
ghost use Rattle.std.specs.Prelude.{◌≡◌};
ghost use Rattle.queries.specs.machine.Table.{fitted};

// Writes numbers to the start of a list if it has room for them.
pub fn fit(list: &mut [u32], numbers: &[u32])
    ensures { list.new ≡ fitted list.old numbers.now }
{
    if numbers.len() <= list.len() {
        // kept: an index, for `copy_from_slice` would have the archive for C ask for `memmove`, which it does without.
        for i in 0..numbers.len() {
            list[i] = numbers[i];
        }
    }
}
