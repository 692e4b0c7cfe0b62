//! Pieces of fixed texts.

ghost use Rattle.std.specs.Prelude.{◌≡◌, ◌<◌, ◌==◌, length, IfSome, position};
ghost use Rattle.std.specs.Option.{option_copied};
ghost use Rattle.prove_top.specs.Texts.{middle_of, before_mark};

/// What stands between `head` and `tail`, where the bytes are `head`, something and `tail`.
pub(crate) fn middle<'a>(bytes: &'a [u8], head: &[u8], tail: &[u8]) -> Option<&'a [u8]>
    ensures { option_copied result ≡ middle_of head.now tail.now bytes.now }
{
    if bytes.len() < head.len() || bytes.len() - head.len() < tail.len() {
        return None;
    }
    let (front, rest) = bytes.split_at(head.len());
    let (inner, back) = rest.split_at(rest.len() - tail.len());
    if front != head {
        return None;
    }
    if back != tail {
        return None;
    }
    Some(inner)
}

/// The place of the first `mark`.
fn place_of(bytes: &[u8], mark: u8) -> Option<usize>
    ensures place { result ≡ position (λ byte. byte == mark) bytes.now }
    ensures inside { IfSome result (λ place. place < length bytes.now) }
{
    bytes.iter().position(|byte| *byte == mark)
}

/// The bytes before the first `mark`, all where there is none.
pub(crate) fn front(bytes: &[u8], mark: u8) -> &[u8]
    ensures { result.now ≡ before_mark mark bytes.now }
{
    match place_of(bytes, mark) {
        Some(place) => &bytes[..place],
        None => bytes,
    }
}
