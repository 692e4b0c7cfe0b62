use crate::at_most_one_reading;
use crate::terminals::level_of_mark;
use crate::words::is_quoted;
use std::test::Fail;

#[test]
fn words_of_the_grammar(rt: HostRuntime) -> Result<(), Fail> {
    for word in [
        "module",
        "or",
        "casez",
        "default",
        "endgenerate",
        "localparam",
    ] {
        assert!(rt; is_quoted(word.as_bytes()));
    }
    for word in ["modules", "casex", "nor", "integer", "", "Module"] {
        assert!(rt; !is_quoted(word.as_bytes()));
    }
    Ok(())
}

#[test]
fn levels_of_operators(rt: HostRuntime) -> Result<(), Fail> {
    for (mark, level) in [
        ("**", 1),
        ("*", 2),
        ("/", 2),
        ("%", 2),
        ("+", 3),
        ("-", 3),
        ("<<", 4),
        (">>>", 4),
        ("<", 5),
        ("<=", 5),
        ("==", 6),
        ("!==", 6),
        ("&", 7),
        ("~^", 8),
        ("^", 8),
        ("|", 9),
        ("&&", 10),
        ("||", 11),
        ("~&", 0),
        ("?", 0),
        ("", 0),
    ] {
        assert!(rt; level_of_mark(mark.as_bytes()) == level);
    }
    at_most_one_reading();
    Ok(())
}
