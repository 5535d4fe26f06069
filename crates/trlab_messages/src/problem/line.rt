//! The problem with an unexpected line.

use crate::fault::Fault;
use crate::names::{
    CHECK_NAMES, after_rule, belongs_in, count_probabilities, count_values, line_named,
};
use crate::problem::WITH_BYTE_ORDER_MARK;
use crate::sentence::{Draft, Quoted};
use trlab_asm::mnemonic_named;
use trlab_jobs::Subject;
use trlab_lines::{Oddity, name_and_operands, oddity_of};
use trlab_texts::word::head_word;
use trlab_texts::{LineName, LineNames};

/// The problem with the first line of an input that begins neither like a job nor like a sweep or a program.
const FIRST_LINE: &str = "the first line must be `road 1` (a job), `sweep 1` (a sweep), \
    or `motion` or `change` (a program).";

/// Adds the problem with the words after `rule`: an unknown name, or too many or too few values.
fn push_rule_problem(problem: &mut Draft, words: &[u8]) {
    let rule = head_word(words);
    let count = words.iter().filter(|byte| **byte == b' ').count();
    let name = Quoted(rule);
    let wanted = match count_probabilities(rule) {
        None => {
            return write!(
                problem,
                "unknown rule `{name}`. The rules are nasch, vdr, rickert and own."
            );
        }
        Some(wanted) if wanted == count => return,
        Some(0) => "no values",
        Some(1) => "one value",
        Some(_) => "two values",
    };
    write!(problem, "`rule {name}` takes {wanted}, found {count}.");
}

/// Adds the problem with a line whose first word is not valid there.
fn push_name_problem(problem: &mut Draft, subject: Subject, word: &[u8]) {
    match line_named(word) {
        Some(name) if !belongs_in(name, subject) => {
            let belongs = match subject {
                Subject::Job => "belongs in a sweep, not in a job",
                Subject::Sweep => "belongs in a job, not in a sweep",
                Subject::Check => "does not belong in a program",
            };
            let word = Quoted(word);
            write!(problem, "a `{word}` line {belongs}.");
        }
        // For an unknown word, the lines that were expected are enough.
        None if word != b"code".as_slice() && word != b"end".as_slice() => {}
        _ if subject == Subject::Check => {}
        _ => problem.push_str(
            "this line does not belong here: a line above it is missing, or it is a duplicate.",
        ),
    }
}

/// Adds the problem with the values of a line whose name is valid there.
fn push_values_problem(problem: &mut Draft, line: &[u8], name: LineName) {
    let Some(wanted) = count_values(name) else {
        return;
    };
    let words = line
        .split(|byte| *byte == b' ')
        .filter(|word| !word.is_empty())
        .count();
    let count = words.saturating_sub(1);
    if matches!(name, LineName::Road | LineName::Sweep) {
        problem.push_str("the format version must be 1.");
    } else if count != wanted {
        let word = Quoted(name.word());
        let wanted = if wanted == 0 {
            "no values"
        } else {
            "one value"
        };
        write!(problem, "`{word}` takes {wanted}, found {count}.");
        if name == LineName::Lane && count > 1 {
            problem.push_str(" Write an empty cell as `.`.");
        }
    }
}

/// Whether a line begins neither with the name of a line nor with an instruction.
fn is_foreign(line: &[u8]) -> bool {
    let word = head_word(line);
    line_named(word).is_none()
        && !CHECK_NAMES.contains(&word)
        && mnemonic_named(name_and_operands(line).0).is_none()
}

/// Adds the problem with a line by its first word.
fn push_word_problem(problem: &mut Draft, fault: &Fault<'_>, names: LineNames) {
    let word = head_word(fault.line);
    let may_begin_program = names.has(LineName::Motion) || names.has(LineName::Change);
    match line_named(word) {
        Some(name) if names.has(name) => push_values_problem(problem, fault.line, name),
        None if may_begin_program && word == b"code".as_slice() => {}
        // No line may come here at all.
        _ if names.is_empty() => {}
        None if begins_check(fault) && is_foreign(fault.line) => problem.push_str(FIRST_LINE),
        _ => push_name_problem(problem, fault.subject, word),
    }
}

/// Whether a fault is in the first line of an input that is read as a program.
fn begins_check(fault: &Fault<'_>) -> bool {
    fault.subject == Subject::Check && fault.place.number == 1
}

/// An oddity in words; `is_first` if it is in the first line of an input that is read as a program.
fn odd_words(oddity: Oddity, is_first: bool) -> &'static str {
    match oddity {
        Oddity::Empty if is_first => FIRST_LINE,
        Oddity::Comment if is_first =>
            "the line has a comment: comments are allowed only inside programs, below `motion` or `change`.",
        Oddity::ByteOrderMark => WITH_BYTE_ORDER_MARK,
        Oddity::CarriageReturn =>
            "the line ends with a carriage return (Windows line ending): use LF only.",
        Oddity::Empty => "the line is empty: empty lines are allowed only inside programs.",
        Oddity::Tab => "the line contains a tab: separate words with one space.",
        Oddity::FirstSpace => "the line begins with a space.",
        Oddity::FinalSpace => "the line ends with a space.",
        Oddity::Comment => "the line has a comment: comments are allowed only inside programs.",
    }
}

/// Adds the problem with an unexpected line.
pub fn push_line_problem(problem: &mut Draft, fault: &Fault<'_>, names: LineNames) {
    let Some(line) = fault.place.line else {
        return problem.push_str(if fault.place.text.is_empty() {
            "the input is empty. On the command line, did you forget `< FILE`?"
        } else if names.has(LineName::End) {
            "the end of the file: a program has no line `end`."
        } else {
            "the end of the file: a line is missing."
        });
    };
    if let Some(oddity) = oddity_of(line) {
        return problem.push_str(odd_words(oddity, begins_check(fault)));
    }
    if let Some(words) = after_rule(line) {
        push_rule_problem(problem, words);
    }
    if problem.is_empty() {
        push_word_problem(problem, fault, names);
    }
}
