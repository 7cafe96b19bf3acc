// A search in a short list.
ghost use Rattle.std.specs.Prelude.{◌≡◌};
ghost use Rattle.definition_log.specs.meaning.Record.{one_of};

// Whether a number is in a list.
// kept: a name of its own, for its contract has the word of the specs, and each caller would prove that of `contains`.
pub fn one_of(k: u32, list: &[u32]) -> bool
    ensures { result ≡ one_of k list.now }
{
    list.contains(&k)
}
