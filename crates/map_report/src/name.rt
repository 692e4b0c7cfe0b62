//! The names of access policies.

ghost use Rattle.std.specs.Prelude.{◌≡◌};
ghost use Rattle.map_report.specs.Names.{policy_text, name_text};

use field_policies::policy::Policy;

/// A policy's name, as IEEE 1800.2 spells it.
fn policy_text(policy: Policy) -> &'static [u8]
    ensures { result.now ≡ policy_text policy }
{
    match policy {
        Policy::RO => b"RO".as_slice(),
        Policy::RC => b"RC".as_slice(),
        Policy::RS => b"RS".as_slice(),
        Policy::RW => b"RW".as_slice(),
        Policy::WRC => b"WRC".as_slice(),
        Policy::WRS => b"WRS".as_slice(),
        Policy::WC => b"WC".as_slice(),
        Policy::WCRS => b"WCRS".as_slice(),
        Policy::WS => b"WS".as_slice(),
        Policy::WSRC => b"WSRC".as_slice(),
        Policy::W1C => b"W1C".as_slice(),
        Policy::W1CRS => b"W1CRS".as_slice(),
        Policy::W1S => b"W1S".as_slice(),
        Policy::W1SRC => b"W1SRC".as_slice(),
        Policy::W1T => b"W1T".as_slice(),
        Policy::W0C => b"W0C".as_slice(),
        Policy::W0CRS => b"W0CRS".as_slice(),
        Policy::W0S => b"W0S".as_slice(),
        Policy::W0SRC => b"W0SRC".as_slice(),
        Policy::W0T => b"W0T".as_slice(),
        Policy::W1 => b"W1".as_slice(),
        Policy::WO => b"WO".as_slice(),
        Policy::WOC => b"WOC".as_slice(),
        Policy::WOS => b"WOS".as_slice(),
        Policy::WO1 => b"WO1".as_slice(),
    }
}

/// The name of a policy, or a dash where a field's effects have no name.
#[tactic(auto, unfolding(crate::specs::Names::name_text))]
pub fn name_text(policy: Option<Policy>) -> &'static [u8]
    ensures { result.now ≡ name_text policy }
{
    match policy {
        Some(policy) => policy_text(policy),
        None => b"-".as_slice(),
    }
}
