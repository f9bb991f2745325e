// The tokens of a text: document 01, "How trainers type a rule".
#![tactic(auto)]

ghost use Rattle.std.specs.Prelude.{◌≡◌, ◌+◌, ◌<◌, ◌≤◌, length, drop, ℕ, Bool};
ghost use Rattle.text.specs.Token.{is_blank, is_letter, is_alnum, words, word_kind, text_marks, mark_piece};
ghost use Rattle.text.specs.Kinds.{kind_number};
ghost use Rattle.tokens.specs.Spans.{part, Span};
ghost use Rattle.tokens.specs.Tokens.{StandsNext, refused_at, span, packed, packed_kind, single_kind, mark_size};

use refusals::Reason;
use text::kinds::Kind;

pub mod names;

// A token: its kind, and the byte places where it starts and ends. These stand apart, since side by side a processor is made to move them as a
// pair, right after they were written one by one.
#[derive(Clone, Copy)]
pub struct Token {
    pub start: usize,
    pub kind: Kind,
    pub stop: usize,
}

// Why a text is refused, and the bytes of the token at which that lies.
#[derive(Clone, Copy, Debug, PartialEq, Eq)]
pub struct TokenFault {
    pub reason: Reason,
    pub start: usize,
    pub stop: usize,
}

impl Token {
    pub fn refused(self, reason: Reason) -> TokenFault
        ensures { result ≡ refused_at self reason }
    {
        TokenFault {
            reason,
            start: self.start,
            stop: self.stop,
        }
    }
}

// By `==`, which becomes one test of a bit for all four: by `matches!` texts take a twentieth more instructions.
fn is_blank(b: u8) -> bool
    ensures { result ≡ is_blank b }
{
    b == b' ' || b == b'\t' || b == b'\r' || b == b'\n'
}

fn is_letter(b: u8) -> bool
    ensures { result ≡ is_letter b }
{
    matches!(b, b'A'..=b'Z' | b'a'..=b'z')
}

fn is_alnum(b: u8) -> bool
    ensures { result ≡ is_alnum b }
{
    is_letter(b) || matches!(b, b'0'..=b'9')
}

// The first place from `at` on whose byte fails a test.
fn run_end<F: Fn(u8) -> bool>(text: &[u8], at: usize, passes: F) -> usize
    requires { F.IsAlwaysCallable passes }
    ensures { (p : ℕ → Bool) → ((b : ℕ) (r : Bool) → F.post passes b r → r ≡ p b) → result ≡ at + span p (drop at text.now) }
{
    for i in at..text.len() {
        if !passes(text[i]) {
            return i;
        }
    }
    at.max(text.len())
}

// At most four bytes as one number.
fn pack(text: &[u8], start: usize, stop: usize) -> u64
    requires span { Span text.now start stop }
    requires stop_bound { stop ≤ start + 4 }
    ensures { result ≡ packed (part text.now start stop) }
{
    let mut v: u64 = 1;
    for i in (start..stop).rev() {
        v = v * 256 + u64::from(text[i]);
    }
    v
}

// The kind of the letters and digits that are packed in v.
#[tactic(auto, unfolding(crate::specs::Tokens::packed_kind, crate::specs::Tokens::packed, text::specs::Token::words, text::specs::Token::spell))]
fn packed_kind(v: u64) -> Kind
    ensures { kind_number result ≡ packed_kind 0 words v }
{
    match v {
        0x1_7332_7377 => Kind::Ws2s,
        0x1_3172_6176 => Kind::Var1,
        0x1_3272_6176 => Kind::Var2,
        0x131_7865 => Kind::Ex1,
        0x132_7865 => Kind::Ex2,
        0x1_316C_6C61 => Kind::All1,
        0x1_326C_6C61 => Kind::All2,
        0x162_7573 => Kind::Sub,
        0x1_6E69 => Kind::In,
        0x1_746F_6F72 => Kind::Root,
        _ => Kind::Name,
    }
}

// The kind of a run of letters and digits: no word has more than four.
fn word_kind(text: &[u8], start: usize, stop: usize) -> Kind
    requires { Span text.now start stop }
    ensures { kind_number result ≡ word_kind 0 words (part text.now start stop) }
{
    if 4 < stop - start {
        return Kind::Name;
    }
    packed_kind(pack(text, start, stop))
}

// The kind of a byte that is a mark and begins no longer one.
#[tactic(auto, unfolding(crate::specs::Tokens::single_kind))]
fn single_kind(b: u8) -> Kind
    ensures { kind_number result ≡ single_kind b }
{
    match b {
        b';' => Kind::Semicolon,
        b',' => Kind::Comma,
        b':' => Kind::Colon,
        b'(' => Kind::Opening,
        b')' => Kind::Closing,
        b'~' => Kind::Not,
        b'&' => Kind::And,
        b'|' => Kind::Or,
        _ => Kind::Stray,
    }
}

// The kind of the longest mark at a place, or of a stray byte.
fn mark_kind(text: &[u8], at: usize) -> Kind
    requires { at < length text.now }
    ensures { kind_number result ≡ (mark_piece 10 text_marks (drop at text.now)).kind }
{
    let behind = &text[at + 1..];
    match text[at] {
        b'=' if behind.starts_with(b">") => Kind::Implies,
        b'=' => Kind::Equals,
        b'<' if behind.starts_with(b"=>") => Kind::Alike,
        b'<' => Kind::Stray,
        b'.' if behind.starts_with(b"0") => Kind::Branch1,
        b'.' if behind.starts_with(b"1") => Kind::Branch2,
        b'.' => Kind::Stray,
        b => single_kind(b),
    }
}

// How many bytes a mark of that kind has; a stray has one.
#[tactic(auto, unfolding(crate::specs::Tokens::mark_size))]
fn mark_size(kind: Kind) -> usize
    ensures { result ≡ mark_size (kind_number kind) }
{
    match kind {
        Kind::Alike => 3,
        Kind::Implies | Kind::Branch1 | Kind::Branch2 => 2,
        _ => 1,
    }
}

// The token that stands next at a place; after the last one, the end.
pub fn token_at(text: &[u8], at: usize) -> Token
    ensures { StandsNext text.now at result }
{
    let start = run_end(text, at, |b| is_blank(b));
    if text.len() <= start {
        return Token {
            kind: Kind::End,
            start,
            stop: start,
        };
    }
    if is_letter(text[start]) {
        let stop = run_end(text, start + 1, |b| is_alnum(b));
        return Token {
            kind: word_kind(text, start, stop),
            start,
            stop,
        };
    }
    let kind = mark_kind(text, start);
    Token {
        kind,
        start,
        stop: start + mark_size(kind),
    }
}
