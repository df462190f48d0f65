//! How often a rule or a part of it may act.
ghost use Rattle.std.specs.Prelude.{◌≡◌};
ghost use Rattle.fw_addr.specs.Names.{limit_text, unit_letter, unit_text};

use std::fmt;

/// A span of time over which a limit counts.
#[derive(Clone, Copy, Debug, PartialEq, Eq)]
pub enum Unit {
    Second,
    Minute,
    Hour,
    Day,
}

/// A rate: so many times in each span of time.
#[derive(Clone, Copy, Debug, PartialEq, Eq)]
pub struct Limit {
    pub count: u16,
    pub unit: Unit,
}

impl Unit {
    /// The unit's name in nft(8).
    pub fn as_str(self) -> &'static str
        ensures { result.now ≡ unit_text self }
    {
        match self {
            Unit::Second => "second",
            Unit::Minute => "minute",
            Unit::Hour => "hour",
            Unit::Day => "day",
        }
    }

    /// The unit's letter in firewalld.richlanguage(5).
    pub fn letter(self) -> &'static str
        ensures { result.now ≡ unit_letter self }
    {
        match self {
            Unit::Second => "s",
            Unit::Minute => "m",
            Unit::Hour => "h",
            Unit::Day => "d",
        }
    }
}

impl fmt::Display for Unit {
    ghost use Rattle.std.specs.Prelude.{Some};
    ghost use Rattle.fw_addr.specs.Names.{unit_text};

    ghost output = { λ unit. Some (unit_text unit) };

    fn fmt<W: fmt::Write>(&self, f: &mut fmt::Formatter<W>) -> fmt::Result {
        f.write_str(self.as_str())
    }
}

impl fmt::Display for Limit {
    ghost use Rattle.std.specs.Prelude.{Some};
    ghost use Rattle.fw_addr.specs.Names.{limit_text};

    ghost output = { λ limit. Some (limit_text limit) };

    /// The rate with the unit's name, as in nft(8): `3/minute`.
    fn fmt<W: fmt::Write>(&self, f: &mut fmt::Formatter<W>) -> fmt::Result {
        let Limit { count, unit } = *self;
        write!(f, "{count}/{unit}")
    }
}
