//! The rules of a valid configuration.
ghost use Rattle.std.specs.Prelude.{◌≡◌};
ghost use Rattle.fw_broken.specs.Broken.{number};

/// What a valid configuration keeps, in the order in which what is broken is told.
#[derive(Clone, Copy, Debug, PartialEq, Eq)]
pub enum Rule {
    /// Names of zones, policies, services and ipsets are well formed, and unique in their kind; no zone is called `HOST` or `ANY`.
    Names,
    /// The default zone is there.
    DefaultZone,
    /// An interface is bound to at most one zone.
    Interfaces,
    /// A source is bound to at most one zone.
    Sources,
    /// Ipsets that are named are there, and their items fit them.
    Ipsets,
    /// Services and ICMP types that are named are there; a service's destinations are of their families.
    Known,
    /// Policies stand between zones that there are, and do there what can be done there.
    Policies,
    /// No list has an element twice.
    Repeats,
    /// Rich rules have parts that go together; plain forward ports have a target, and no address of IPv6.
    Written,
}

impl Rule {
    /// The rule's number, from 1 to 9.
    pub fn number(self) -> u8
        ensures { result ≡ number self }
    {
        match self {
            Rule::Names => 1,
            Rule::DefaultZone => 2,
            Rule::Interfaces => 3,
            Rule::Sources => 4,
            Rule::Ipsets => 5,
            Rule::Known => 6,
            Rule::Policies => 7,
            Rule::Repeats => 8,
            Rule::Written => 9,
        }
    }
}
