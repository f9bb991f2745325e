// The parts of a text that do not nest: a word or mark that must stand, what a quantifier binds, an atom, the declarations. Each is read token by
// token, and refused at the token at which the definitions refuse it: document 01, "How trainers type a rule".
#![tactic(auto)]

ghost use Rattle.std.specs.Prelude.{◌≡◌, ◌≢◌, [], ◌<◌, length, IfErr};
ghost use Rattle.text.specs.Grammar.{new_refusal, is_in_use, spot_of, atom_of, declarations};
ghost use Rattle.text.specs.Grammar as grammar;
ghost use Rattle.tokens.specs.Spans.{part, Span};
ghost use Rattle.tokens.specs.Tokens.{StandsNext, read_from, tokens_at};
ghost use Rattle.tokens.specs.Named.{order_of};
ghost use Rattle.tokens.specs.InUse.{scope_of};
ghost use Rattle.phrases.specs.Looked.{Looked, UsedAs, LiesAt, refusal_number, relation_by, good_order, Declares};
ghost use Rattle.phrases.specs.Told.{MarkTold, BinderTold, SpotTold, BranchTold, AtomTold, RightTold, EqualTold, RelatedTold, DeclarationsTold};

use drafting::{Atom, Branch, Spot};
use refusals::Reason;
use text::kinds::Kind;
use tokens::names::{Name, Names, Order};
use tokens::{Token, TokenFault};

// What a quantifier binds: the name's span and the place behind the colon.
#[derive(Clone, Copy)]
pub struct Binder {
    pub start: usize,
    pub stop: usize,
    pub next: usize,
}

// What a name in use stands for, and its track.
#[derive(Clone, Copy)]
struct Holder {
    order: Order,
    track: usize,
}

// The right side of an equality, and the place behind it.
#[derive(Clone, Copy)]
struct SpotRead {
    place: Spot,
    next: usize,
}

// An atom, and the place behind it.
#[derive(Clone, Copy)]
pub struct AtomRead {
    pub atom: Atom,
    pub next: usize,
}

// Declared names, and the place behind them.
#[derive(Clone, Copy)]
pub struct Declared<'t> {
    pub names: Names<'t>,
    pub next: usize,
}

// The word or mark of a kind, which must stand next: the place behind it.
pub fn read_mark(text: &[u8], kind: Kind, at: usize) -> Result<usize, TokenFault>
    requires { kind ≢ Kind.End }
    ensures { MarkTold text.now kind at result }
{
    let t = tokens::token_at(text, at);
    if t.kind != kind {
        return Err(t.refused(Reason::TextGrammar));
    }
    Ok(t.stop)
}

// The name and the colon behind a quantifier word, where names are in use.
pub fn read_binder(names: &Names, at: usize) -> Result<Binder, TokenFault>
    ensures { BinderTold names.now.text.now names.now.count at result }
{
    let name = tokens::token_at(names.text, at);
    if name.kind != Kind::Name {
        return Err(name.refused(Reason::TextGrammar));
    }
    if 8 <= names.count {
        return Err(name.refused(Reason::TextVariables));
    }
    let next = read_mark(names.text, Kind::Colon, name.stop)?;
    Ok(Binder {
        start: name.start,
        stop: name.stop,
        next,
    })
}

// The name of a span, if it is in use.
fn look_up(names: &Names, start: usize, stop: usize) -> Option<Holder>
    requires { Span names.now.text.now start stop }
    ensures { Looked (scope_of names.now) (part names.now.text.now start stop) result }
{
    let track = names.find(start, stop)?;
    Some(Holder {
        order: names.entries[track].order,
        track,
    })
}

// The track of a token where a name of that order must stand.
fn use_name(names: &Names, t: Token, order: Order) -> Result<usize, TokenFault>
    requires { t.kind ≡ Kind.Name → Span names.now.text.now t.start t.stop }
    ensures { UsedAs names.now.text.now (scope_of names.now) (order_of order) t result }
{
    if t.kind != Kind::Name {
        return Err(t.refused(Reason::TextGrammar));
    }
    let wrong = t.refused(Reason::TextName);
    let Some(held) = look_up(names, t.start, t.stop) else {
        return Err(wrong);
    };
    if held.order != order {
        return Err(wrong);
    }
    Ok(held.track)
}

// The branch of a name of that track, whose name ends at a place, if one is named.
fn read_branch(text: &[u8], track: usize, at: usize) -> SpotRead
    requires { track < 8 }
    ensures { BranchTold text.now track at result }
{
    let mark = tokens::token_at(text, at);
    match mark.kind {
        Kind::Branch1 => SpotRead {
            place: Spot::Branch {
                branch: Branch::One,
                track,
            },
            next: mark.stop,
        },
        Kind::Branch2 => SpotRead {
            place: Spot::Branch {
                branch: Branch::Two,
                track,
            },
            next: mark.stop,
        },
        _ => SpotRead {
            place: Spot::Variable { track },
            next: at,
        },
    }
}

// The right side of an equality: only behind a name is the token after it looked at.
fn read_spot(names: &Names, at: usize) -> Result<SpotRead, TokenFault>
    ensures { SpotTold names.now.text.now (scope_of names.now) at
        (spot_of (scope_of names.now) (tokens_at names.now.text.now at)) result }
{
    let t = tokens::token_at(names.text, at);
    if t.kind == Kind::Root {
        return Ok(SpotRead {
            place: Spot::Root,
            next: t.stop,
        });
    }
    let track = use_name(names, t, Order::First)?;
    Ok(read_branch(names.text, track, t.stop))
}

// Whether a name of that order may stand before a token of that kind.
fn left_good(order: Order, kind: Kind) -> bool
    ensures { result ≡ good_order (relation_by kind) order }
{
    match kind {
        Kind::Sub => order == Order::Second,
        Kind::In | Kind::Equals => order == Order::First,
        _ => true,
    }
}

// The right side of `sub` or `in`, which is the kind, behind a left name of that track.
fn read_right(names: &Names, left: usize, kind: Kind, at: usize) -> Result<AtomRead, TokenFault>
    requires { left < 8 }
    ensures { RightTold names.now.text.now (scope_of names.now) left kind at result }
{
    let t = tokens::token_at(names.text, at);
    let right = use_name(names, t, Order::Second)?;
    let atom = if kind == Kind::Sub {
        Atom::Sub { left, right }
    } else {
        Atom::Member {
            element: left,
            set: right,
        }
    };
    Ok(AtomRead { atom, next: t.stop })
}

// The right side of an equality whose left name has that track.
fn read_equal(names: &Names, left: usize, at: usize) -> Result<AtomRead, TokenFault>
    requires { left < 8 }
    ensures { EqualTold names.now.text.now (scope_of names.now) left at result }
{
    let read = read_spot(names, at)?;
    Ok(AtomRead {
        atom: Atom::Equal {
            left,
            place: read.place,
        },
        next: read.next,
    })
}

// What follows an atom's left name, of that track, from the token behind it on.
fn read_related(names: &Names, left: usize, relation: Token) -> Result<AtomRead, TokenFault>
    requires { left < 8 }
    ensures { RelatedTold names.now.text.now (scope_of names.now) left relation result }
{
    match relation.kind {
        Kind::Equals => read_equal(names, left, relation.stop),
        Kind::Sub => read_right(names, left, Kind::Sub, relation.stop),
        Kind::In => read_right(names, left, Kind::In, relation.stop),
        _ => Err(relation.refused(Reason::TextGrammar)),
    }
}

// An atom, from its first token. A name of the wrong order is refused at the name, though the order that is asked of it shows only at the token
// behind it.
pub fn read_atom(names: &Names, left: Token) -> Result<AtomRead, TokenFault>
    requires { StandsNext names.now.text.now left.start left }
    ensures { AtomTold names.now.text.now (scope_of names.now) left.start
        (atom_of (scope_of names.now) (tokens_at names.now.text.now left.start)) result }
{
    if left.kind != Kind::Name {
        return Err(left.refused(Reason::TextGrammar));
    }
    let wrong = left.refused(Reason::TextName);
    let Some(held) = look_up(names, left.start, left.stop) else {
        return Err(wrong);
    };
    let relation = tokens::token_at(names.text, left.stop);
    if !left_good(held.order, relation.kind) {
        return Err(wrong);
    }
    read_related(names, held.track, relation)
}

// Whether a token may stand where a new name is declared.
fn new_refusal(names: &Names, t: Token) -> Result<(), TokenFault>
    requires { t.kind ≡ Kind.Name → Span names.now.text.now t.start t.stop }
    ensures value { refusal_number result ≡ new_refusal
        (is_in_use (scope_of names.now) (part names.now.text.now t.start t.stop)) (scope_of names.now)
        (read_from names.now.text.now t) }
    ensures at_token { IfErr result (λ f. LiesAt t f) }
{
    if t.kind != Kind::Name {
        return Err(t.refused(Reason::TextGrammar));
    }
    if look_up(names, t.start, t.stop).is_some() {
        return Err(t.refused(Reason::TextName));
    }
    if names.count < 8 {
        return Ok(());
    }
    Err(t.refused(Reason::TextVariables))
}

// The names of one declaration, behind its word, and the semicolon.
fn read_names(mut names: Names, order: Order, at: usize) -> Result<Declared, TokenFault>
    ensures { DeclarationsTold names.entry.text.now at (grammar.names (length (tokens_at names.entry.text.now at)) (order_of order)
        (scope_of names.entry) (tokens_at names.entry.text.now at)) result }
{
    let mut place = at;
    // A `loop`: it ends where the declaration does.
    loop {
        let name = tokens::token_at(names.text, place);
        new_refusal(&names, name)?;
        names.push(Name {
            start: name.start,
            stop: name.stop,
            order,
        });
        let mark = tokens::token_at(names.text, name.stop);
        match mark.kind {
            Kind::Comma => {
                place = mark.stop;
            }
            Kind::Semicolon => {
                return Ok(Declared {
                    names,
                    next: mark.stop,
                });
            }
            _ => {
                return Err(mark.refused(Reason::TextGrammar));
            }
        }
    }
}

// The order of the names that a word declares, if it declares names.
fn declared_order(word: Kind) -> Option<Order>
    ensures { Declares word result }
{
    match word {
        Kind::Var1 => Some(Order::First),
        Kind::Var2 => Some(Order::Second),
        _ => None,
    }
}

// Any number of declarations, from a place on.
pub fn read_declarations(text: &[u8], at: usize) -> Result<Declared, TokenFault>
    ensures { DeclarationsTold text.now at
        (declarations (length (tokens_at text.now at)) [] (tokens_at text.now at)) result }
{
    let mut all = Declared {
        names: Names::new(text),
        next: at,
    };
    // A `loop`: it ends where the declarations do.
    loop {
        let word = tokens::token_at(text, all.next);
        let Some(order) = declared_order(word.kind) else {
            return Ok(all);
        };
        all = read_names(all.names, order, word.stop)?;
    }
}
