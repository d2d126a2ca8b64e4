//! Names and words in the lines of a project file.
ghost use Rattle.std.specs.Prelude.{◌≡◌, ◌<◌};
ghost use Rattle.std.specs.Option.{option_map};
ghost use Rattle.project_files.specs.Directives.{behind, parted, is_word_byte, is_name_byte, is_module_name, is_value_name, is_module_line, is_setting, has_word, at_word_end};
ghost use Rattle.std.specs.List.{list_all};

/// Whether a byte goes on the name of a module's line: a letter, a digit or `_`.
fn is_word_byte(byte: u8) -> bool
    ensures { result ≡ is_word_byte byte }
{
    byte.is_ascii_alphanumeric() || byte == b'_'
}

/// Whether a byte goes on a name of a source: a letter, a digit, `_` or `'`.
fn is_name_byte(byte: u8) -> bool
    ensures { result ≡ is_name_byte byte }
{
    is_word_byte(byte) || byte == b'\''
}

/// Whether all these bytes go on a name of a source.
fn are_name_bytes(bytes: &[u8]) -> bool
    ensures { result ≡ list_all is_name_byte bytes.now }
{
    bytes.iter().all(|byte| is_name_byte(*byte))
}

/// Whether all these bytes go on the name of a module's line.
fn are_word_bytes(bytes: &[u8]) -> bool
    ensures { result ≡ list_all is_word_byte bytes.now }
{
    bytes.iter().all(|byte| is_word_byte(*byte))
}

/// Whether these bytes are a module's name in a source.
pub fn is_module_name(name: &[u8]) -> bool
    ensures { result ≡ is_module_name name.now }
{
    match name {
        [] => false,
        [first, later @ ..] => { first.is_ascii_uppercase() && are_name_bytes(later) }
    }
}

/// Whether these bytes are a value's name in a source.
pub fn is_value_name(name: &[u8]) -> bool
    ensures { result ≡ is_value_name name.now }
{
    match name {
        [] => false,
        [first, later @ ..] => {
            (first.is_ascii_lowercase() || *first == b'_') && are_name_bytes(later)
        }
    }
}

/// Whether these bytes are the line of a module.
pub fn is_module_line(line: &[u8]) -> bool
    ensures { result ≡ is_module_line line.now }
{
    match line {
        [] => false,
        [first, later @ ..] => { first.is_ascii_lowercase() && are_word_bytes(later) }
    }
}

/// What stands behind these bytes, where a line begins with them.
pub fn behind<'a>(front: &str, line: &'a str) -> Option<&'a str>
    ensures { option_map (λ rest. rest.now) result ≡ behind front.now line.now }
{
    line.strip_prefix(front)
}

/// What stands before and behind the first of an ASCII character.
pub fn parted(line: &str, character: char) -> Option<(&str, &str)>
    requires { character < 128 }
    ensures { option_map (λ parts. (parts.0.now, parts.1.now)) result ≡ parted character line.now }
{
    line.split_once(character)
}

/// Whether a word ends before these bytes: there are none, or the first is a space.
fn at_word_end(bytes: &[u8]) -> bool
    ensures { result ≡ at_word_end bytes.now }
{
    match bytes {
        [] => true,
        [first, ..] => *first == b' ',
    }
}

/// Whether a line is a word, alone or before a space.
fn has_word(word: &str, line: &str) -> bool
    ensures { result ≡ has_word word.now line.now }
{
    match behind(word, line) {
        None => false,
        Some(rest) => at_word_end(rest.as_bytes()),
    }
}

/// Whether a line is a setting that has no effect.
pub fn is_setting(line: &str) -> bool
    ensures { result ≡ is_setting line.now }
{
    has_word("database", line)
        || has_word("sql", line)
        || has_word("exe", line)
        || has_word("timeout", line)
        || has_word("debug", line)
}
