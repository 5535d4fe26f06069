//! The lines of job, sweep and program files by their first words, and sets of them.

ghost use Rattle.std.specs.Prelude.{◌≡◌, ◌<◌, ◌||◌, IsTrue, ◌↔◌, false, length, nat_eq, true};
ghost use Rattle.trlab_texts.specs.declared.line_name.LineName.{LineName as AName};
ghost use Rattle.trlab_texts.specs.Words.{has_name, name_and_space, name_number, name_word};

/// A line of a job, sweep or program file, by its first word.
#[derive(Clone, Copy, Debug, PartialEq, Eq)]
pub enum LineName {
    /// The line `road 1`.
    Road,
    /// The line `sweep 1`.
    Sweep,
    /// The line `key H`.
    Key,
    /// The line `limit n`.
    Limit,
    /// The line `length n` of a sweep.
    Length,
    /// The line `lanes n` of a sweep.
    Lanes,
    /// A line `lane P` of a job.
    Lane,
    /// A line `rule ..`.
    Rule,
    /// The line `motion`, or `code X` with a motion program.
    Motion,
    /// The line `change`, or `code X` with a change program.
    Change,
    /// The line `steps n` of a job.
    Steps,
    /// A line `at s rule ..` of a job.
    At,
    /// The line `warm n` of a sweep.
    Warm,
    /// The line `measure n` of a sweep.
    Measure,
    /// A line `cars n` of a sweep.
    Cars,
    /// The line `end` after a program's last line.
    End,
}

impl LineName {
    /// All names.
    pub const ALL: [LineName; 16] = [
        LineName::Road,
        LineName::Sweep,
        LineName::Key,
        LineName::Limit,
        LineName::Length,
        LineName::Lanes,
        LineName::Lane,
        LineName::Rule,
        LineName::Motion,
        LineName::Change,
        LineName::Steps,
        LineName::At,
        LineName::Warm,
        LineName::Measure,
        LineName::Cars,
        LineName::End,
    ];

    /// The first word of the line, and a space.
    pub fn name_and_space(self) -> &'static [u8]
        ensures { result.now ≡ name_and_space self }
    {
        match self {
            LineName::Road => b"road ",
            LineName::Sweep => b"sweep ",
            LineName::Key => b"key ",
            LineName::Limit => b"limit ",
            LineName::Length => b"length ",
            LineName::Lanes => b"lanes ",
            LineName::Lane => b"lane ",
            LineName::Rule => b"rule ",
            LineName::Motion => b"motion ",
            LineName::Change => b"change ",
            LineName::Steps => b"steps ",
            LineName::At => b"at ",
            LineName::Warm => b"warm ",
            LineName::Measure => b"measure ",
            LineName::Cars => b"cars ",
            LineName::End => b"end ",
        }
    }

    /// The first word of the line.
    pub fn word(self) -> &'static [u8]
        ensures { result.now ≡ name_word self }
    {
        let name = self.name_and_space();
        let (word, _) = name.split_at(name.len() - 1);
        word
    }
}

/// A set of line names.
#[derive(Clone, Copy)]
pub struct LineNames {
    present: [bool; 16],
}

impl LineNames {
    /// The empty set.
    pub fn none() -> LineNames
        ensures { (name : AName) → has_name result name ≡ false }
    {
        LineNames {
            present: [false; 16],
        }
    }

    /// The set with this name added.
    pub fn with(self, name: LineName) -> LineNames
        ensures { (other : AName) →
            has_name result other ≡ (nat_eq (name_number other) (name_number name) || has_name self other) }
    {
        let mut present = self.present;
        present[name as usize] = true;
        LineNames { present }
    }

    /// Whether the set contains this name.
    pub fn has(self, name: LineName) -> bool
        ensures { result ≡ has_name self name }
    {
        self.present[name as usize]
    }

    /// Whether the set contains no name.
    pub fn is_empty(self) -> bool
        ensures { result ≡ true → (name : AName) → has_name self name ≡ false }
    {
        !self.present.contains(&true)
    }
}
