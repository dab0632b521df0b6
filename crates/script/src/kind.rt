ghost use Rattle.std.specs.Prelude.{◌≡◌, MatchOption, ◌≢◌};
ghost use Rattle.script.specs.Names.{kind_name};

// The kinds of lock that a schedule may name.
#[derive(Clone, Copy, Debug, PartialEq, Eq)]
pub enum Kind {
    Tas,
    Ticket,
    Array,
    Mcs,
    Clh,
}

impl Kind {
    // The kind of this name, if there is one.
    pub(crate) fn named(name: &[u8]) -> Option<Kind>
        ensures { MatchOption result ((k : Kind) → name.now ≢ kind_name k) (λ k. name.now ≡ kind_name k) }
    {
        match name {
            b"tas" => Some(Kind::Tas),
            b"ticket" => Some(Kind::Ticket),
            b"array" => Some(Kind::Array),
            b"mcs" => Some(Kind::Mcs),
            b"clh" => Some(Kind::Clh),
            _ => None,
        }
    }

    pub(crate) fn name(self) -> &'static [u8]
        ensures { result.now ≡ kind_name self }
    {
        match self {
            Kind::Tas => b"tas",
            Kind::Ticket => b"ticket",
            Kind::Array => b"array",
            Kind::Mcs => b"mcs",
            Kind::Clh => b"clh",
        }
    }
}
