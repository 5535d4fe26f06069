//! The names of lines and of rules, and the samples of lines that repairs insert.

use trlab_jobs::Subject;
use trlab_lines::cut;
use trlab_texts::LineName;

/// The first words of a check.
pub const CHECK_NAMES: [&[u8]; 4] = [b"motion", b"change", b"code", b"notes"];

/// The line that begins with this word, if it is not `end`.
pub fn line_named(word: &[u8]) -> Option<LineName> {
    let mut names = LineName::ALL.iter().copied();
    names.find(|name| name.word() == word && *name != LineName::End)
}

/// Whether lines of this name belong in an input of this kind.
pub fn belongs_in(name: LineName, subject: Subject) -> bool {
    match subject {
        Subject::Job => !matches!(
            name,
            LineName::Sweep
                | LineName::Length
                | LineName::Lanes
                | LineName::Warm
                | LineName::Measure
                | LineName::Cars
        ),
        Subject::Sweep => !matches!(
            name,
            LineName::Road | LineName::Lane | LineName::Steps | LineName::At
        ),
        Subject::Check => matches!(name, LineName::Motion | LineName::Change),
    }
}

/// An example of a line, with its own LF and the LF before it.
fn sample(name: LineName) -> &'static [u8] {
    match name {
        LineName::Road => b"\nroad 1\n",
        LineName::Sweep => b"\nsweep 1\n",
        LineName::Key =>
            b"\nkey 0000000000000000000000000000000000000000000000000000000000000000\n",
        LineName::Limit => b"\nlimit 5\n",
        LineName::Length => b"\nlength 100\n",
        LineName::Lanes => b"\nlanes 1\n",
        LineName::Lane => b"\nlane 0.........\n",
        LineName::Rule => b"\nrule nasch 0\n",
        LineName::Motion => b"\nmotion\n",
        LineName::Change => b"\nchange\n",
        LineName::Steps => b"\nsteps 100\n",
        LineName::At => b"\nat 0 rule nasch 0\n",
        LineName::Warm => b"\nwarm 100\n",
        LineName::Measure => b"\nmeasure 100\n",
        LineName::Cars => b"\ncars 1\n",
        LineName::End => b"\nend\n",
    }
}

/// An example of a line to insert after a text, with an LF first if the last line of the text has none.
pub fn line_after(text: &[u8], line: LineName) -> &'static [u8] {
    let sample = sample(line);
    if !text.is_empty() && text.last() != Some(&b'\n') {
        return sample;
    }
    sample.strip_prefix(b"\n").unwrap_or(sample)
}

/// Whether a line of some kind of input begins with this word, in capital or small letters.
pub fn is_name_of_line(word: &[u8]) -> bool {
    let mut names = LineName::ALL.iter();
    names.any(|name| word.eq_ignore_ascii_case(name.word()))
        || word.eq_ignore_ascii_case(b"code")
        || word.eq_ignore_ascii_case(b"notes")
}

/// The words after `rule`: the standard rules and `own`.
pub const RULE_NAMES: [&[u8]; 4] = [b"nasch", b"vdr", b"rickert", b"own"];

/// How many probabilities follow the name of a rule; `None` if the name is unknown.
pub fn count_probabilities(rule: &[u8]) -> Option<usize> {
    match rule {
        b"own" => Some(0),
        b"nasch" => Some(1),
        b"vdr" | b"rickert" => Some(2),
        _ => None,
    }
}

/// How many values follow the name of a line; `None` if that depends on them.
pub fn count_values(name: LineName) -> Option<usize> {
    match name {
        LineName::Motion | LineName::Change | LineName::End => Some(0),
        LineName::Rule | LineName::At => None,
        _ => Some(1),
    }
}

/// The rest of a line after the word `rule`, if that is one of its first three words, as in `rule ..` and `at s rule
/// ..`.
pub fn after_rule(line: &[u8]) -> Option<&[u8]> {
    let mut left = line;
    for _ in 0..3 {
        let (word, rest) = cut(left, b' ')?;
        if word == b"rule".as_slice() {
            return Some(rest);
        }
        left = rest;
    }
    None
}
