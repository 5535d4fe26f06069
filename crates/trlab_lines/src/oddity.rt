//! Oddities: characters that lines outside programs may not have.

ghost use Rattle.std.specs.Prelude.{IfSome, MatchOption};
ghost use Rattle.trlab_lines.specs.declared.oddity.Oddity.{Oddity as AnOddity};
ghost use Rattle.trlab_lines.specs.Lines.{HasOddity, IsFirstOddity};

/// A character that is not allowed in any line outside programs, or an empty line.
#[derive(Clone, Copy)]
pub enum Oddity {
    /// The line begins with the bytes EF BB BF.
    ByteOrderMark,
    CarriageReturn,
    /// The line has no bytes.
    Empty,
    Tab,
    /// The line begins with a space.
    FirstSpace,
    /// The line ends with a space.
    FinalSpace,
    /// The line has a `;` or a `#`.
    Comment,
}

/// The first oddity of a line, in the order of the variants of [`Oddity`].
pub fn oddity_of(line: &[u8]) -> Option<Oddity>
    ensures found { MatchOption result ((oddity : AnOddity) → ¬ (HasOddity line.now oddity)) (HasOddity line.now) }
    ensures first { IfSome result (IsFirstOddity line.now) }
{
    if line.strip_prefix(b"\xef\xbb\xbf").is_some() {
        Some(Oddity::ByteOrderMark)
    } else if line.contains(&b'\r') {
        Some(Oddity::CarriageReturn)
    } else if line.is_empty() {
        Some(Oddity::Empty)
    } else if line.contains(&b'\t') {
        Some(Oddity::Tab)
    } else if line.first() == Some(&b' ') {
        Some(Oddity::FirstSpace)
    } else if line.last() == Some(&b' ') {
        Some(Oddity::FinalSpace)
    } else if line.contains(&b';') || line.contains(&b'#') {
        Some(Oddity::Comment)
    } else {
        None
    }
}
