//! Reserved words (SystemRDL 2.0, clause 4.4, "Keywords").

ghost use Rattle.std.specs.Prelude.{◌≡◌};
ghost use Rattle.rdl_tree.specs.Tree.{is_reserved};

/// A word that is no name.
#[tactic(auto, unfolding(crate::specs::Tree::is_reserved))]
pub fn is_reserved(word: &[u8]) -> bool
    ensures { result ≡ is_reserved word.now }
{
    (word == b"addrmap".as_slice())
        | (word == b"regfile".as_slice())
        | (word == b"reg".as_slice())
        | (word == b"field".as_slice())
        | (word == b"enum".as_slice())
        | (word == b"default".as_slice())
        | (word == b"true".as_slice())
        | (word == b"false".as_slice())
        | (word == b"signal".as_slice())
        | (word == b"mem".as_slice())
        | (word == b"constraint".as_slice())
        | (word == b"struct".as_slice())
        | (word == b"external".as_slice())
        | (word == b"internal".as_slice())
        | (word == b"alias".as_slice())
        | (word == b"property".as_slice())
        | (word == b"component".as_slice())
        | (word == b"abstract".as_slice())
        | (word == b"posedge".as_slice())
        | (word == b"negedge".as_slice())
        | (word == b"bothedge".as_slice())
        | (word == b"level".as_slice())
        | (word == b"nonsticky".as_slice())
}
