//! Places in the given files, and their order.

ghost use Rattle.std.specs.Prelude.{◌≡◌, IfSome, [], IfNone};
ghost use Rattle.bit_base.specs.Places.{is_before, earlier, IsFirst};

/// Where something stands: in the file of this number, counted from 0 in the order given, at this
/// line and column, both counted from 1 in bytes. A whole file is 0:0.
#[derive(Clone, Copy, Debug, PartialEq, Eq, PartialOrd, Ord, Hash, Drop)]
pub struct Place {
    pub file: u32,
    pub line: u32,
    pub column: u32,
}

impl Place {
    /// Whether this place stands before the other: in an earlier file, else in an earlier line,
    /// else in an earlier column.
    pub fn is_before(self, other: Place) -> bool
        ensures { result ≡ is_before self other }
    {
        self < other
    }

    /// The one of the two that stands before the other.
    pub fn earlier(self, other: Place) -> Place
        ensures { result ≡ earlier self other }
    {
        if other.is_before(self) { other } else { self }
    }
}

/// The first of several places, None where there is none.
pub fn first_of(places: &[Place]) -> Option<Place>
    ensures first { IfSome result (λ place. IsFirst place places.now) }
    ensures none { IfNone result (places.now ≡ []) }
{
    let mut found = *places.first()?;
    for place in places {
        found = found.earlier(*place);
    }
    Some(found)
}
