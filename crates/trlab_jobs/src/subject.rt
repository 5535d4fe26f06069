//! The kinds of inputs, and their first words.

ghost use Rattle.std.specs.Prelude.{◌≡◌};
ghost use Rattle.trlab_jobs.specs.Subjects.{is_named, subject_named};

/// A kind of input, by the commands that read it.
#[derive(Clone, Copy, PartialEq, Eq)]
pub enum Subject {
    /// A job, which `run` and `series` read.
    Job,
    /// A sweep, which `sweep` reads.
    Sweep,
    /// A driver program, which `check` reads.
    Check,
}

/// Whether a word is this name, in any case.
fn is_named(word: &[u8], name: &[u8]) -> bool
    ensures { result ≡ is_named word.now name.now }
{
    word.eq_ignore_ascii_case(name)
}

/// The kind of input that begins with this word: a job with `road`, a sweep with `sweep`, a check with the first word
/// of a program.
pub fn subject_named(word: &[u8]) -> Option<Subject>
    ensures { result ≡ subject_named word.now }
{
    if is_named(word, b"road") {
        Some(Subject::Job)
    } else if is_named(word, b"sweep") {
        Some(Subject::Sweep)
    } else if is_named(word, b"motion")
        || is_named(word, b"change")
        || is_named(word, b"code")
        || is_named(word, b"notes")
    {
        Some(Subject::Check)
    } else {
        None
    }
}
