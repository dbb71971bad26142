// The words that a program is run with.
ghost use Rattle.std.specs.Prelude.{◌≡◌, ◌≢◌, ◌<◌, ◌⊎◌, codes, length, slice_index, Decides};

// Whether a path names standard input: a dash alone does.
pub fn is_input(path: &str) -> bool
    ensures { Decides result (path.now ≡ codes "-") }
{
    path == "-"
}

// Whether a word asks for help.
pub fn is_help(word: &str) -> bool
    ensures { Decides result ((word.now ≡ codes "-h") ⊎ (word.now ≡ codes "--help")) }
{
    word == "-h" || word == "--help"
}

// Whether a word is an option: it begins with a dash, and isn't the one that names standard input.
pub fn is_option(word: &str) -> bool
    ensures { Decides result ((1 < length word.now) × (slice_index word.now 0 ≡ 45)) }
{
    word.starts_with('-') && !is_input(word)
}

// What a file is called in a report.
pub(crate) fn name_of(path: &str) -> &str
    ensures input { path.now ≡ codes "-" → result.now ≡ codes "standard input" }
    ensures other { (path.now ≢ codes "-") → result.now ≡ path.now }
{
    if is_input(path) {
        "standard input"
    } else {
        path
    }
}
