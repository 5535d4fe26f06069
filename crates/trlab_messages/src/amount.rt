//! Numbers with decimals.

use std::fmt;

/// The quotient of `part` and `whole`, rounded down to at most `decimals` decimals. `whole` is 1 for whole numbers.
#[derive(Clone, Copy)]
pub struct Amount {
    part: u64,
    whole: u64,
    decimals: u32,
}

impl Amount {
    pub fn of(part: u64, whole: u64, decimals: u32) -> Amount {
        Amount {
            part,
            whole,
            decimals,
        }
    }
}

impl fmt::Display for Amount {
    fn fmt<W: fmt::Write>(&self, f: &mut fmt::Formatter<W>) -> fmt::Result {
        let whole = self.whole.max(1);
        let number = self.part / whole;
        let mut rest = self.part % whole;
        write!(f, "{number}")?;
        if rest != 0 {
            write!(f, ".")?;
        }
        // Once nothing is left, only zeros would follow: they are not written.
        for _ in 0..self.decimals {
            if rest != 0 {
                let tenths = rest.saturating_mul(10);
                let digit = tenths / whole;
                write!(f, "{digit}")?;
                rest = tenths % whole;
            }
        }
        Ok(())
    }
}
