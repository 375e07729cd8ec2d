// Bytes that are printed as their digits.
ghost use Rattle.std.specs.Prelude.{Some};
ghost use Rattle.digits.specs.Pairs.{hex, capital_hex};

use std::fmt;

// Bytes, printed as two digits each.
#[derive(Clone, Copy)]
pub struct Hex<'a>(pub &'a [u8]);

impl<'a> fmt::Display for Hex<'a> {
    ghost output = { λ h. Some (hex h.0.now) };

    fn fmt<W: fmt::Write>(&self, f: &mut fmt::Formatter<W>) -> fmt::Result {
        for &b in self.0 {
            write!(f, "{b:02x}")?;
        }
        Ok(())
    }
}

// The same in capitals. A format string is a literal and takes `{:X}` only at an integer, so one type for both would choose between two of them at each byte.
#[derive(Clone, Copy)]
pub struct Capitals<'a>(pub &'a [u8]);

impl<'a> fmt::Display for Capitals<'a> {
    ghost output = { λ h. Some (capital_hex h.0.now) };

    fn fmt<W: fmt::Write>(&self, f: &mut fmt::Formatter<W>) -> fmt::Result {
        for &b in self.0 {
            write!(f, "{b:02X}")?;
        }
        Ok(())
    }
}
