//! What the lines of SAVE.time say of a SAVE.
ghost use Rattle.std.specs.Prelude.{◌≡◌};
ghost use Rattle.cartridge_clock.specs.Lines.{greatest, greatest_fitting, fits, until_by};

/// A line of SAVE.time.
#[derive(Clone, Copy, Debug, Default, PartialEq, Eq)]
pub struct Line {
    /// How many inputs a SAVE has at least that this line speaks of.
    pub count: u64,
    /// Until when its clock was given, in seconds since 1970.
    pub until: u64,
}

/// The greatest time of all lines, 0 without any.
#[tactic(auto, using(std::proofs::lemmas::List::Sums::fold_more))]
fn greatest_of_all(lines: &[Line]) -> u64
    ensures { result ≡ greatest lines.now }
{
    let mut most = 0;
    for line in lines {
        if line.until > most {
            most = line.until;
        }
    }
    most
}

/// The greatest time of the lines that speak of a SAVE with so many inputs, 0 without any.
#[tactic(auto, using(std::proofs::lemmas::List::Sums::fold_more))]
fn greatest_that_fits(lines: &[Line], count: u64) -> u64
    ensures { result ≡ greatest_fitting count lines.now }
{
    let mut most = 0;
    for line in lines {
        if line.count <= count && line.until > most {
            most = line.until;
        }
    }
    most
}

/// Whether a line speaks of a SAVE with so many inputs.
#[tactic(auto, using(std::proofs::lemmas::List::Sums::fold_more))]
pub(crate) fn any_fits(lines: &[Line], count: u64) -> bool
    ensures { result ≡ fits count lines.now }
{
    let mut found = false;
    for line in lines {
        if line.count <= count {
            found = true;
        }
    }
    found
}

/// Until when the clock of a SAVE with so many inputs was given: the greatest time of the lines that speak of it, or of all where none does.
pub fn given_until(lines: &[Line], count: u64) -> u64
    ensures { result ≡ until_by lines.now count }
{
    if any_fits(lines, count) {
        greatest_that_fits(lines, count)
    } else {
        greatest_of_all(lines)
    }
}
