//! The words of the grammar (IEEE 1364-2005, clause 3.7.2, "Keywords").

ghost use Rattle.std.specs.Prelude.{◌≡◌};
ghost use Rattle.vlog_tree.specs.Spelling.{is_quoted};

/// A word that the grammar quotes, which is no name.
#[tactic(auto, unfolding(crate::specs::Spelling::is_quoted))]
pub fn is_quoted(word: &[u8]) -> bool
    ensures { result ≡ is_quoted word.now }
{
    (word == b"module".as_slice())
        | (word == b"endmodule".as_slice())
        | (word == b"parameter".as_slice())
        | (word == b"localparam".as_slice())
        | (word == b"input".as_slice())
        | (word == b"output".as_slice())
        | (word == b"wire".as_slice())
        | (word == b"reg".as_slice())
        | (word == b"signed".as_slice())
        | (word == b"genvar".as_slice())
        | (word == b"assign".as_slice())
        | (word == b"always".as_slice())
        | (word == b"initial".as_slice())
        | (word == b"generate".as_slice())
        | (word == b"endgenerate".as_slice())
        | (word == b"for".as_slice())
        | (word == b"if".as_slice())
        | (word == b"else".as_slice())
        | (word == b"begin".as_slice())
        | (word == b"end".as_slice())
        | (word == b"or".as_slice())
        | (word == b"posedge".as_slice())
        | (word == b"negedge".as_slice())
        | (word == b"case".as_slice())
        | (word == b"casez".as_slice())
        | (word == b"endcase".as_slice())
        | (word == b"default".as_slice())
}
