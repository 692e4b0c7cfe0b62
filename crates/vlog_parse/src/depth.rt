//! Limits on what is open and on what runs on.

ghost use Rattle.std.specs.Prelude.{◌≡◌, ◌≤◌, ◌<◌, ◌+◌, ◌^◌, ◌++◌, ◌∷◌, [], Bool, ◌||◌, MatchOption, if◌then◌else◌};
ghost use Rattle.vlog_tree.specs.Terminals.{Tokens};
ghost use Rattle.vlog_parse.specs.Depth as spec;
ghost use Rattle.vlog_parse.specs.Depth.{IsShallow, IsFirstDeep};
ghost use Rattle.vlog_parse.specs.Counts as counts;
ghost use Rattle.vlog_parse.specs.Counts.{IsSmall};

use bit_base::place::Place;
use vlog_tree::token::VToken;

/// How many brackets and words may be open.
const MOST_OPEN: u32 = 64;

/// How many tokens may stand without a `;`.
const MOST_UNENDED: u32 = 2048;

/// How many `else` may stand in a process or a region.
const MOST_ELSES: u32 = 1024;

fn opens_bracket(token: &VToken) -> bool
    ensures { result ≡ spec.opens_bracket token.now }
{
    token.is_mark(b"(") || token.is_mark(b"[") || token.is_mark(b"{")
}

fn closes_bracket(token: &VToken) -> bool
    ensures { result ≡ spec.closes_bracket token.now }
{
    token.is_mark(b")") || token.is_mark(b"]") || token.is_mark(b"}")
}

fn opens_block(token: &VToken) -> bool
    ensures { result ≡ spec.opens_block token.now }
{
    token.is_word(b"begin")
        || token.is_word(b"case")
        || token.is_word(b"casez")
        || token.is_word(b"generate")
}

fn closes_block(token: &VToken) -> bool
    ensures { result ≡ spec.closes_block token.now }
{
    token.is_word(b"end") || token.is_word(b"endcase") || token.is_word(b"endgenerate")
}

/// What is open after the token, where so much was open before it.
#[tactic(auto, unfolding(crate::specs::Depth::open_with))]
fn open_with(count: u32, token: &VToken) -> u32
    requires { count ≤ 64 }
    ensures { result ≡ spec.open_with count token.now }
{
    if opens_bracket(token) || opens_block(token) {
        count + 1
    } else if closes_bracket(token) || closes_block(token) {
        count.saturating_sub(1)
    } else {
        count
    }
}

/// The open brackets after the token, where so many were open before it.
#[tactic(auto, unfolding(crate::specs::Depth::bracket_with))]
fn bracket_with(count: u64, token: &VToken) -> u64
    requires { count + 1 < 2 ^ 64 }
    ensures { result ≡ spec.bracket_with count token.now }
{
    if opens_bracket(token) {
        count + 1
    } else if closes_bracket(token) {
        count.saturating_sub(1)
    } else {
        count
    }
}

fn begins_process(token: &VToken) -> bool
    ensures { result ≡ spec.begins_process token.now }
{
    token.is_word(b"always")
        || token.is_word(b"initial")
        || token.is_word(b"module")
        || token.is_word(b"generate")
}

/// What is counted after a front of the tokens.
#[derive(Clone, Copy, Debug, Drop)]
struct Counts {
    /// The brackets and words that are open.
    nested: u32,
    /// The brackets that were opened since the last `module` and are open.
    brackets: u64,
    /// Behind a `module` and before its first `;`.
    in_header: bool,
    /// The tokens behind the last `;`, or `,` that counts as one.
    unended: u32,
    /// The `else` behind the last `always`, `initial`, `module` or `generate`.
    elses: u32,
}

/// Whether the token counts as a `;`.
fn ends_part(before: Counts, token: &VToken) -> bool
    ensures { result ≡ counts.ends_part before token.now }
{
    token.is_mark(b";") || (token.is_mark(b",") && before.in_header && before.brackets == 1)
}

fn brackets_with(before: Counts, token: &VToken) -> u64
    requires { IsSmall before }
    ensures { result ≡ counts.brackets_with before token.now }
{
    if token.is_word(b"module") {
        0
    } else {
        bracket_with(before.brackets, token)
    }
}

fn is_in_header_with(before: Counts, token: &VToken) -> bool
    ensures { result ≡ counts.is_in_header_with before token.now }
{
    token.is_word(b"module") || (before.in_header && !token.is_mark(b";"))
}

fn unended_with(before: Counts, token: &VToken) -> u32
    requires { IsSmall before }
    ensures { result ≡ counts.unended_with before token.now }
{
    if ends_part(before, token) {
        0
    } else {
        before.unended + 1
    }
}

fn elses_with(before: Counts, token: &VToken) -> u32
    requires { IsSmall before }
    ensures { result ≡ counts.elses_with before token.now }
{
    if begins_process(token) {
        0
    } else if token.is_word(b"else") {
        before.elses + 1
    } else {
        before.elses
    }
}

/// What is counted with one token more.
#[tactic(auto, unfolding(crate::specs::Counts::counts_with))]
fn counts_with(before: Counts, token: &VToken) -> Counts
    requires { IsSmall before }
    ensures { result ≡ counts.counts_with before token.now }
{
    Counts {
        nested: open_with(before.nested, token),
        brackets: brackets_with(before, token),
        in_header: is_in_header_with(before, token),
        unended: unended_with(before, token),
        elses: elses_with(before, token),
    }
}

/// Whether a limit is exceeded.
fn is_over(now: Counts) -> bool
    ensures { result ≡ counts.is_over now }
{
    now.nested > MOST_OPEN || now.unended > MOST_UNENDED || now.elses > MOST_ELSES
}

/// The place of the first token at which a limit is exceeded.
pub fn first_deep(tokens: &[VToken]) -> Option<Place>
    ensures { MatchOption result (IsShallow tokens.now) (λ place. IsFirstDeep tokens.now place) }
{
    let mut now = Counts {
        nested: 0,
        brackets: 0,
        in_header: false,
        unended: 0,
        elses: 0,
    };
    for token in tokens {
        now = counts_with(now, token);
        if is_over(now) {
            return Some(token.place);
        }
    }
    None
}
