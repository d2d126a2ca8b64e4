//! The words that the program answers itself, before the top call.
ghost use Rattle.std.specs.Prelude.{◌≡◌, ◌∷◌, [], codes, IfSome, IsNone, map, option_map, Some, string_bytes};

use page_server::is_only_word;

const HELP: &str = "urweb: pages from Ur/Web modules, by a proved program

usage: urweb COMMAND

  urweb page          reads a module on standard input, and writes the page of its `main`
                      to standard output: ./urweb page < examples/greeting.ur > greeting.html
  urweb check DIR     reads the project in the folder DIR, and writes `accepted`
  urweb explicit DIR  reads the project, and writes its program with all that was inferred

  urweb --help        this text
  urweb --version     the program's version

The other commands of the usage line (run, serve, load) aren't built yet.

Status: 0 done; 1 refused, and one line on standard output says why, in which file and at which byte;
2 the words name no command; 3 reading failed; 4 writing failed; 5 no memory.
Standard error tells the same for a person: the line and the column, with the line itself and a mark.
";

const VERSION: &str = "urweb 0.1.0 (proved with Rattle)
";

/// What `--help` and `--version`, alone, are answered with.
pub(crate) fn answer(words: &[String]) -> Option<&'static str>
    ensures help { map string_bytes words.now ≡ codes "--help" ∷ []
        → option_map (λ text. text.now) result ≡ Some HELP.now }
    ensures version { map string_bytes words.now ≡ codes "--version" ∷ []
        → option_map (λ text. text.now) result ≡ Some VERSION.now }
    ensures others { ¬ (map string_bytes words.now ≡ codes "--help" ∷ [])
        → ¬ (map string_bytes words.now ≡ codes "--version" ∷ []) → IsNone result }
{
    if is_only_word(words, "--help") {
        Some(HELP)
    } else if is_only_word(words, "--version") {
        Some(VERSION)
    } else {
        None
    }
}
