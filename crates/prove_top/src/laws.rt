//! Laws of the definitions that the readers are proved against.

ghost use Rattle.prove_top.specs.Laws.{OneSpelling, ReadsWhatIsSpelled, SampledIsFirst};

/// Two expressions whose digits are hexadecimal and that are spelled alike are equal.
pub fn one_spelling()
    ensures { OneSpelling }
{}

/// A Verilog text is read as two expressions exactly where it spells them.
pub fn reads_what_is_spelled()
    ensures { ReadsWhatIsSpelled }
{}

/// The wires of the sampled run are those that the drawn choices drive, and a legal master's, and the
/// sampled difference is the first of its joint run.
pub fn sampled_is_first()
    ensures { SampledIsFirst }
{}
