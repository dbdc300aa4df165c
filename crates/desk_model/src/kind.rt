//! The kind of a plan.
ghost use Rattle.std.specs.Prelude.{◌≡◌, ◌≤◌};
ghost use Rattle.desk_model.specs.claim.Kind.{kind_name};
ghost use Rattle.desk_model.specs.claim.Sizes.{kind_named, most_districts as most_districts_of};
ghost use Rattle.desk_model.specs.claim.Companions.{takes};

/// What a plan divides the state for (Iowa Code 42.4).
#[derive(Clone, Copy, PartialEq, Eq)]
pub enum Kind {
    Congress,
    Senate,
    House,
}

impl Kind {
    /// The word for the kind: `congress`, `senate` or `house`.
    pub fn name(self) -> &'static str
        ensures { result.now ≡ kind_name self }
    {
        match self {
            Kind::Congress => "congress",
            Kind::Senate => "senate",
            Kind::House => "house",
        }
    }

    /// The kind that a word names.
    pub fn from_name(word: &[u8]) -> Option<Kind>
        ensures { result ≡ kind_named word.now }
    {
        if word == b"congress".as_slice() {
            return Some(Kind::Congress);
        }
        if word == b"senate".as_slice() {
            return Some(Kind::Senate);
        }
        if word == b"house".as_slice() {
            return Some(Kind::House);
        }
        None
    }

    /// How many districts a plan of the kind has at most.
    pub fn most_districts(self) -> u16
        ensures value { result ≡ most_districts_of self }
        ensures most { result ≤ 999 }
    {
        match self {
            Kind::Congress => 99,
            Kind::Senate | Kind::House => 999,
        }
    }

    /// Returns whether a plan of this kind may be audited with a companion of kind `beside`.
    pub fn takes(self, beside: Kind) -> bool
        ensures { result ≡ takes beside self }
    {
        match beside {
            Kind::Congress => self != Kind::Congress,
            Kind::Senate => self == Kind::House,
            Kind::House => false,
        }
    }
}
