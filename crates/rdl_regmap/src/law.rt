//! What holds of the map of a description that nothing refuses.

ghost use Rattle.rdl_regmap.specs.Laws as spec;

/// A law: all of the map of a description that nothing refuses can be told: what is named is there, and
/// each number has 32 bits.
pub fn maps_are_told()
    ensures { spec.MapsAreTold }
{}

/// A law: the words and fields of such a map stand in order and apart, and what fields and inputs say
/// of one another agrees.
pub fn maps_are_orderly()
    ensures { spec.MapsAreOrderly }
{}
