//! Laws of the lists of interrupt fields, as functions that do nothing: each one's contract is the law.

ghost use Rattle.member_sums.specs.Sums.{MembersAreOnce, RaisesAreFew};

/// All lists of interrupt fields together weigh at most what all fields weigh.
pub fn members_are_once()
    ensures { MembersAreOnce }
{}

/// At two a place and one more a field, they are at most three for each bit of a field.
pub fn raises_are_few()
    ensures { RaisesAreFew }
{}
