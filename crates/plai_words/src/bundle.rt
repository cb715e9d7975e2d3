// Words of one dash with more behind it.
ghost use Rattle.std.specs.Prelude.{◌≡◌};
ghost use Rattle.plai_words.specs.Command.{texts};
ghost use Rattle.plai_words.specs.Options.{has_bundle, is_bundle, is_end};

/// Whether a word begins with one dash and goes on with another byte.
#[tactic(auto, unfolding(crate::specs::Options::is_bundle))]
fn is_bundle(word: &[u8]) -> bool
    ensures { result ≡ is_bundle word.now }
{
    match word {
        [first, second, ..] => *first == b'-' && *second != b'-',
        _ => false,
    }
}

/// Whether a word ends the options.
#[tactic(auto, unfolding(crate::specs::Options::is_end))]
fn is_end(word: &[u8]) -> bool
    ensures { result ≡ is_end word.now }
{
    word == b"--".as_slice()
}

/// Whether a word before the first `--` is one dash with more behind it, which no option of the command line
/// is. Clap's promise on such a word speaks of its characters, so it is refused before clap sees it.
pub fn has_bundle(words: &[&str]) -> bool
    ensures { result ≡ has_bundle (texts words.now) }
{
    for word in words {
        if is_end(word.as_bytes()) {
            return false;
        }
        if is_bundle(word.as_bytes()) {
            return true;
        }
    }
    false
}
