//! Laws of trails that fit watches, each proved as the contract of a function with nothing to do.

ghost use Rattle.watch_lists.specs.FitLaws.{FirstFits, LongerFits, LowerFits, CutFits, ChosenFits, OpenAreGuarded};

/// A trail of the watches' variables, none twice, that has no level and no propagated literal fits.
pub fn first_fits()
    ensures { FirstFits }
{}

/// A trail that fits still fits when literals of further variables are appended.
pub fn longer_fits()
    ensures { LongerFits }
{}

/// A trail that fits still fits when fewer of its literals count as propagated.
pub fn lower_fits()
    ensures { LowerFits }
{}

/// A trail that fits still fits when it is cut back to the start of a level, before which unit
/// propagation has nothing left to do, and nothing past that counts as propagated.
pub fn cut_fits()
    ensures { CutFits }
{}

/// A trail that fits still fits when a level begins, where all its literals are propagated.
pub fn chosen_fits()
    ensures { ChosenFits }
{}

/// Two literals of a clause are guarded where no literal denies them that is propagated or stands
/// before a level's start: so the trail fits the watches to which the clause is added.
pub fn open_are_guarded()
    ensures { OpenAreGuarded }
{}
