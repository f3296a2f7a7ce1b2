ghost use Rattle.std.specs.Prelude.{◌≡◌};
ghost use Rattle.ax_script.specs.CommandLine.{is_run as is_run_lem, is_store as is_store_lem, store_word};

/// Whether the words are `run STORE`, with the name of a store.
pub fn is_run(words: &[String]) -> bool
    ensures { result ≡ is_run_lem words.now }
{
    match words {
        [command, store] => command.as_str() == "run" && is_store(store.as_str()),
        _ => false,
    }
}

/// The name of the store, of words that have one.
pub fn store_name(words: &[String]) -> &str
    ensures { result.now ≡ store_word words.now }
{
    match words {
        [_, store, ..] => store.as_str(),
        _ => "",
    }
}

/// Whether the word may name a store: it is not empty and does not begin with a dash.
fn is_store(word: &str) -> bool
    ensures { result ≡ is_store_lem word.now }
{
    match word.as_bytes() {
        [] => false,
        [first, ..] => *first != b'-',
    }
}
