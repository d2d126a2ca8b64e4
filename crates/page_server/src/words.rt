//! The command that the program's words name.
ghost use Rattle.std.specs.Prelude.{◌≡◌, ◌↔◌, ◌∷◌, [], map, string_bytes, IsTrue};
ghost use Rattle.std.specs.Option.{option_map};
ghost use Rattle.page_server.specs.Words.{asked, is_folder, one_word, reads, two_words};

/// A command.
#[derive(Clone, Copy, Debug)]
pub enum Command<'a> {
    /// The page of the module on the input.
    Page,
    /// Whether the project in this folder is accepted.
    Check(&'a str),
    /// The explicit program of the project in this folder.
    Explicit(&'a str),
}

/// Whether the words are this one alone.
pub fn is_only_word(words: &[String], wanted: &str) -> bool
    ensures { IsTrue result ↔ (map string_bytes words.now ≡ wanted.now ∷ []) }
{
    match words {
        [word] => word.as_str() == wanted,
        _ => false,
    }
}

/// Whether a word may be the name of a folder.
fn is_folder(word: &str) -> bool
    ensures { result ≡ is_folder word.now }
{
    match word.as_bytes() {
        [] => false,
        [first, ..] => *first != b'-',
    }
}

/// The command of one word.
fn of_one(word: &str) -> Option<Command<'_>>
    ensures { option_map asked result ≡ one_word word.now }
{
    if word == "page" {
        Some(Command::Page)
    } else {
        None
    }
}

/// The command of two words.
fn of_two<'a>(word: &str, dir: &'a str) -> Option<Command<'a>>
    ensures { option_map asked result ≡ two_words word.now dir.now }
{
    if !is_folder(dir) {
        None
    } else if word == "check" {
        Some(Command::Check(dir))
    } else if word == "explicit" {
        Some(Command::Explicit(dir))
    } else {
        None
    }
}

/// The command that words name; none where they name no command.
pub fn read_command(words: &[String]) -> Option<Command<'_>>
    ensures { option_map asked result ≡ reads (map string_bytes words.now) }
{
    match words {
        [word] => of_one(word.as_str()),
        [word, dir] => of_two(word.as_str(), dir.as_str()),
        _ => None,
    }
}
