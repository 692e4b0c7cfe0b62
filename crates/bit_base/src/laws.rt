//! The laws of bits and their numbers, as functions that do nothing: each one's contract is the law.

ghost use Rattle.bit_base.specs.Laws.{NumberIsBelow, PlaceCounts, SignCountsDown, NumberOfJoined, NumberOfLowBits, LowBitsOfNumber, UnsignedExtensionKeeps, SignedExtensionKeeps, NumberOfCut, NumberOfSlice};
ghost use Rattle.bit_base.specs.NumberLaws.{SignedNumberOfLowBits, NumberOfQuotient, NumberOfRemainder, NumberOfPower, PowerIsEnough, LessIsNotEnough};
ghost use Rattle.bit_base.specs.Places.{NotBeforeItself, BeforeGoesOn, OneIsBefore};

/// What the places of a list count.
pub fn places_count()
    ensures number_is_below { NumberIsBelow }
    ensures place_counts { PlaceCounts }
    ensures sign_counts_down { SignCountsDown }
    ensures number_of_joined { NumberOfJoined }
{}

/// `number_of` of `bits_of(value, width)` is the remainder of `value` by 2 to the `width`, and
/// `bits_of` of the number of some bits, at their length, is those bits.
pub fn bits_and_numbers_are_inverse()
    ensures number_of_low_bits { NumberOfLowBits }
    ensures low_bits_of_number { LowBitsOfNumber }
{}

/// An unsigned extension keeps the number, a signed one the signed number; a cut and a slice stand
/// for remainders.
pub fn extensions_keep_numbers()
    ensures unsigned_extension_keeps { UnsignedExtensionKeeps }
    ensures signed_extension_keeps { SignedExtensionKeeps }
    ensures number_of_cut { NumberOfCut }
    ensures number_of_slice { NumberOfSlice }
{}

/// The order of places: none stands before itself, what stands before one that stands before a third
/// stands before the third, and of two unlike ones one stands before the other.
pub fn places_are_ordered()
    ensures not_before_itself { NotBeforeItself }
    ensures before_goes_on { BeforeGoesOn }
    ensures one_is_before { OneIsBefore }
{}

/// A quotient, a remainder and a power stand for those of the numbers, a power for its remainder; a
/// whole number that fits in two's complement is what its lowest bits stand for.
pub fn arithmetic_is_of_numbers()
    ensures number_of_quotient { NumberOfQuotient }
    ensures number_of_remainder { NumberOfRemainder }
    ensures number_of_power { NumberOfPower }
    ensures signed_number_of_low_bits { SignedNumberOfLowBits }
{}

/// The ceiling of the binary logarithm is the least exponent whose power of 2 isn't below the number.
pub fn logarithm_is_least()
    ensures power_is_enough { PowerIsEnough }
    ensures less_is_not_enough { LessIsNotEnough }
{}
