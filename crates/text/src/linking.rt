//! A linking as one line.
ghost use Rattle.std.specs.Prelude.{◌≡◌, IfOk, Some, string_bytes};
ghost use Rattle.text.specs.Lines.{added, joined, entries, entry_at, is_said, linking_line, partner};

use std::alloc::{AllocError, Global};
use std::fmt;

// What a linking holds for a door without a partner.
// stays: a rule of the project: the linkers write a linking into lent memory, as plain numbers; it is read here alone
const UNLINKED: u16 = 65535;

/// The partner that a linking holds for a door; `None` where it holds 65535, for an unlinked door.
pub fn partner(held: u16) -> Option<u16>
    ensures { result ≡ partner held }
{
    (held != UNLINKED).then_some(held)
}

// What a linking says at a door.
// stays: no plainer: `begun` and `stands` answer two questions, and neither says whether another field has a value
#[derive(Clone, Copy)]
struct Entry {
    // whether something stands before it, so that a space parts them
    begun: bool,
    // whether the door stands
    stands: bool,
    door: usize,
    partner: Option<u16>,
}

impl Entry {
    // Whether something is said: nothing at the higher door of a pair, and at a door that does not stand.
    fn is_said(self) -> bool
        ensures { result ≡ is_said (entry_at self.stands self.door self.partner) }
    {
        self.stands
            && self
                .partner
                .is_none_or(|partner| self.door < usize::from(partner))
    }
}

impl fmt::Display for Entry {
    ghost output = { λ e. Some (added e.begun (entry_at e.stands e.door e.partner)) };

    fn fmt<W: fmt::Write>(&self, f: &mut fmt::Formatter<W>) -> fmt::Result {
        if !self.is_said() {
            return Ok(());
        }
        let separator = if self.begun { " " } else { "" };
        match self.partner {
            None => write!(f, "{separator}{}", self.door),
            Some(partner) => write!(f, "{separator}{}-{partner}", self.door),
        }
    }
}

/// The linking of the standing doors, with single spaces between, and one before it where something stands before it: a pair
/// as `a-b` at its lower door, an unlinked door alone. What one of the slices has past the other's end is passed over.
#[derive(Clone, Copy)]
pub struct Linking<'a> {
    /// whether something stands before it
    pub begun: bool,
    // stays: two slices that callers lend, each from where it is held
    /// for each door whether it stands
    pub standing: &'a [bool],
    /// for each door its partner, or 65535
    pub partners: &'a [u16],
}

impl<'a> fmt::Display for Linking<'a> {
    ghost output = { λ l. Some (joined l.begun (entries 0 l.standing.now l.partners.now)) };

    fn fmt<W: fmt::Write>(&self, f: &mut fmt::Formatter<W>) -> fmt::Result {
        let mut begun = self.begun;
        for (door, (stands, held)) in self.standing.iter().zip(self.partners).enumerate() {
            let entry = Entry {
                begun,
                stands: *stands,
                door,
                partner: partner(*held),
            };
            write!(f, "{entry}")?;
            begun |= entry.is_said();
        }
        Ok(())
    }
}

/// The line of a linking: a head, where there is one, and its entries.
// stays: a public function that promised this text before its `Display` stood
pub fn linking_line(
    heap: Global,
    head: &str,
    standing: &[bool],
    partners: &[u16],
) -> Result<String, AllocError>
    ensures { IfOk result (λ s. string_bytes s ≡ linking_line head.now standing.now partners.now) }
{
    let linking = Linking {
        begun: !head.is_empty(),
        standing,
        partners,
    };
    format!(in heap; "{head}{linking}")
}
