// The units of a sheet's numbers, for people.
ghost use Rattle.std.specs.Prelude.{◌≡◌};
ghost use Rattle.listing.specs.Page.{unit_text};
ghost use Rattle.listing.specs.Unit.{unit_name};

#[derive(Clone, Copy)]
pub(crate) enum Unit {
    // No unit.
    Bare,
    Hours,
    HoursGmt,
    Degrees,
    Radians,
    Kilometres,
    Megahertz,
    MhosPerMetre,
}

impl Unit {
    // The unit after two blanks, where there is one.
    pub(crate) fn words(self) -> &'static [u8]
        ensures { result.now ≡ unit_text (unit_name self) }
    {
        match self {
            Unit::Bare => b"",
            Unit::Hours => b"  hours",
            Unit::HoursGmt => b"  hours GMT",
            Unit::Degrees => b"  degrees",
            Unit::Radians => b"  radians",
            Unit::Kilometres => b"  km",
            Unit::Megahertz => b"  MHz",
            Unit::MhosPerMetre => b"  mhos/m",
        }
    }
}
