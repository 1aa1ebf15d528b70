//! What the tables of a level hold: records of two doors.
ghost use Rattle.std.specs.Prelude.{◌≡◌, Bool};
ghost use Rattle.level.specs.Meant.{meant};

/// Two doors that may not be linked to each other.
#[derive(Clone, Copy, PartialEq, Eq, Debug)]
pub struct Pair {
    /// One of the two doors.
    pub first: u8,
    /// The other one.
    pub second: u8,
}

/// The second door was moved to the head of the first one's list, the last time at this turn, counted from 1.
#[derive(Clone, Copy, PartialEq, Eq, Debug)]
pub struct Favour {
    /// The door whose list was changed.
    pub first: u8,
    /// The door that was moved to its head.
    pub second: u8,
    /// The turn, counted from 1.
    pub turn: u64,
}

// Which records are meant: those of one door, of two doors in either order, or of two doors in this order.
// stays: a closure is no plainer: for `is_meant about` the clauses of a table would say of every test that the closure decides it
// (`(test : T → Bool) → ((x : T) (b : Bool) → FnReturnsAt F.Fn f x b → b ≡ test x) → ..`), and forbid and strike would need answers
#[derive(Clone, Copy)]
pub(crate) enum About {
    Door(u8),
    Either(u8, u8),
    Order(u8, u8),
}

impl About {
    // Is a record of these two doors meant?
    pub(crate) fn means(self, first: u8, second: u8) -> bool
        ensures { result ≡ meant self first second }
    {
        match self {
            About::Door(door) => first == door || second == door,
            About::Either(a, b) => first == a && second == b || first == b && second == a,
            About::Order(a, b) => first == a && second == b,
        }
    }
}

// A record of two doors.
pub(crate) trait Linked: Copy {
    ghost use Rattle.level.specs.declared.records.About.{About};

    ghost is_meant: { About → Self → Bool };

    // Is this record meant?
    fn is_about(&self, about: About) -> bool
        ensures { result ≡ is_meant about self.now };
}

// stays: alike for both records, but one impl for both would need a getter of the two doors in each, as long as this
impl Linked for Pair {
    ghost is_meant = { λ about pair. meant about pair.first pair.second };

    fn is_about(&self, about: About) -> bool {
        about.means(self.first, self.second)
    }
}

impl Linked for Favour {
    ghost is_meant = { λ about favour. meant about favour.first favour.second };

    fn is_about(&self, about: About) -> bool {
        about.means(self.first, self.second)
    }
}
