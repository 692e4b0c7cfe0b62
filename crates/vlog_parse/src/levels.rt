//! How many items and statements may stand in one another.

ghost use Rattle.std.specs.Prelude.{◌≡◌, ◌-◌, nat_lt, if◌then◌else◌, Ok, Err};
ghost use Rattle.parsing.specs.declared.stop.Stop.TheVariants.{Refused};

use parsing::stop::Stop;

/// How many items and statements may stand in one another.
///
/// Reading and releasing a tree take stack for each level. With this bound and `STATEMENT_LEVELS`, and with what the
/// limits on tokens leave to brackets and operators, the worst mix fits three quarters of the usual 8 MB.
pub const MOST_LEVELS: usize = 2112;

/// How many of these levels are for statements alone: so 1,056 items may stand in one another, the 1,024 `else` that
/// the limits on tokens allow, and 32 more.
pub const STATEMENT_LEVELS: usize = 1056;

/// How many levels are left below one of so many, of which the last are for others.
pub fn level_below(levels: usize, others: usize) -> Result<usize, Stop>
    ensures { result ≡ (if nat_lt others levels then Ok (levels - 1) else Err Refused) }
{
    if levels > others {
        Ok(levels - 1)
    } else {
        Err(Stop::Refused)
    }
}
