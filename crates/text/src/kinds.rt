// The kinds of tokens.

// The words, then the marks, as specs/Token.antt lists them, then what is neither.
#[derive(Clone, Copy, Debug, PartialEq, Eq)]
pub enum Kind {
    Ws2s,
    Var1,
    Var2,
    Ex1,
    Ex2,
    All1,
    All2,
    Sub,
    In,
    Root,
    Semicolon,
    Comma,
    Colon,
    Opening,
    Closing,
    Not,
    And,
    Or,
    Implies,
    Alike,
    Equals,
    Branch1,
    Branch2,
    Name,
    // A byte that starts no token.
    Stray,
    // Of the text.
    End,
}
