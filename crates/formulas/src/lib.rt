// Formulas of a text, read and drafted. "A bracketed formula holds formulas, which hold bracketed ones": the readers call each other, and at each
// call what is left of the text, the levels that may still open, or the operators that may still join fall.
#![tactic(auto)]

ghost use Rattle.std.specs.Prelude.{◌≡◌, suc, []};
ghost use Rattle.refusals.specs.declared.Reason.TheVariants as reason;
ghost use Rattle.text.specs.Grammar.{atom_of};
ghost use Rattle.tokens.specs.Named.{order_of};
ghost use Rattle.tokens.specs.Tokens.{StandsNext, refused_at};
ghost use Rattle.drafting.specs.Draft.{Drafted};
ghost use Rattle.formulas.specs.declared.Opener.TheVariants.{Bracket, Quantified};
ghost use Rattle.formulas.specs.Words.{opener_of, order_by, mark_of};

use drafting::{Draft, Operator, Quantifier};
use refusals::Reason;
use text::kinds::Kind;
use tokens::names::{Name, Names, Order};
use tokens::{Token, TokenFault};

// Where reading has come to in a text: the names in use, the token that stands next, the records so far, and how many tracks were taken; and,
// once it was refused, why and at which token.
#[derive(Drop)]
pub struct Reader<'t> {
    pub names: Names<'t>,
    pub next: Token,
    pub draft: Draft,
    pub tracks: usize,
    pub fault: TokenFault,
    pub ghost stands: { StandsNext names.text.now next.start next },
}

// Reading was refused: the reader has the fault. An answer that had it would go through memory at each level on the way up.
#[derive(Clone, Copy, Debug, PartialEq, Eq)]
pub struct Refused;

// What opens a level before an operand: a bracket, `~`, or a quantifier word.
#[derive(Clone, Copy)]
enum Opener {
    Bracket,
    Denial,
    Quantified(Quantifier),
}

// What a token of that kind opens, if it opens a level.
fn opens(kind: Kind) -> Option<Opener>
    ensures { result ≡ opener_of kind }
{
    match kind {
        Kind::Opening => Some(Opener::Bracket),
        Kind::Not => Some(Opener::Denial),
        Kind::Ex1 => Some(Opener::Quantified(Quantifier::SomePlace)),
        Kind::Ex2 => Some(Opener::Quantified(Quantifier::SomeSet)),
        Kind::All1 => Some(Opener::Quantified(Quantifier::EveryPlace)),
        Kind::All2 => Some(Opener::Quantified(Quantifier::EverySet)),
        _ => None,
    }
}

// What the name that a quantifier word binds stands for.
fn order(quantifier: Quantifier) -> Order
    ensures { order_of result ≡ order_by quantifier }
{
    match quantifier {
        Quantifier::SomePlace | Quantifier::EveryPlace => Order::First,
        Quantifier::SomeSet | Quantifier::EverySet => Order::Second,
    }
}

// The mark of an operator.
fn mark(operator: Operator) -> Kind
    ensures { result ≡ mark_of operator }
{
    match operator {
        Operator::Alike => Kind::Alike,
        Operator::Implies => Kind::Implies,
        Operator::Or => Kind::Or,
        Operator::And => Kind::And,
    }
}

impl<'t> Reader<'t> {
    ghost use Rattle.formulas.specs.Reading.{level_at, strength_of, bracket_at, quantified_at, Joining};
    ghost use Rattle.formulas.specs.Reading.{Looks, Refuses, Reads, Leads, Closes};

    // At a text's first token, with nothing read.
    pub fn new(text: &'t [u8]) -> Reader<'t>
        ensures text_value { result.names.text.now ≡ text.now }
        ensures none { Drafted result.draft [] }
        ensures first { StandsNext text.now 0 result.next }
    {
        let next = tokens::token_at(text, 0);
        Reader {
            names: Names::new(text),
            next,
            draft: Draft::new(),
            tracks: 0,
            fault: next.refused(Reason::TextGrammar),
        }
    }

    // The token that stands next from a place on. Part by part: as a whole it would be moved in pieces that straddle the parts just written, for
    // which a processor waits.
    pub fn look(&mut self, at: usize)
        ensures { Looks at self.old self.new }
    {
        let token = tokens::token_at(self.names.text, at);
        self.next = Token {
            start: token.start,
            kind: token.kind,
            stop: token.stop,
        };
    }

    // Reading is refused.
    fn refuse(&mut self, fault: TokenFault) -> Refused
        ensures { Refuses fault self.old self.new }
    {
        self.fault = fault;
        Refused
    }

    // Reading is refused at the token that stands next, which leaves the grammar or depth.
    fn refuse_next(&mut self) -> Refused
        ensures { Refuses (refused_at self.old.next reason.TextGrammar) self.old self.new }
    {
        self.refuse(self.next.refused(Reason::TextGrammar))
    }

    // The bracket that closes a formula.
    fn close(&mut self) -> Result<(), Refused>
        ensures { Closes self.old self.new result }
    {
        if self.next.kind != Kind::Closing {
            return Err(self.refuse_next());
        }
        self.look(self.next.stop);
        Ok(())
    }

    // An atom, with its record.
    fn atom(&mut self) -> Result<(), Refused>
        ensures { Reads atom_of self.old self.new result }
    {
        let read = match phrases::read_atom(&self.names, self.next) {
            Ok(read) => read,
            Err(fault) => return Err(self.refuse(fault)),
        };
        self.draft.put_atom(read.atom);
        self.look(read.next);
        Ok(())
    }

    // A formula in which no operator weaker than this one joins. Its first operand is read once, and then each operator may go on from there, the
    // strongest first. Its helpers are inlined, so that a level takes two frames, this one and an operand's.
    #[cycle(formula)]
    pub fn formula(&mut self, depth: usize, weakest: Operator) -> Result<(), Refused>
        ensures { Reads (level_at depth (strength_of weakest)) self.old self.new result }
    {
        self.operand(depth)?;
        self.more(depth, Operator::And)?;
        if weakest == Operator::And {
            return Ok(());
        }
        self.more(depth, Operator::Or)?;
        if weakest == Operator::Or {
            return Ok(());
        }
        self.arrow(depth)?;
        if weakest == Operator::Implies {
            return Ok(());
        }
        self.more(depth, Operator::Alike)
    }

    // The operands that the operator, `<=>`, `|` or `&`, joins to the first: "`=>` groups to the right, the others to the left".
    #[cycle(formula)]
    #[inline(always)]
    fn more(&mut self, depth: usize, operator: Operator) -> Result<(), Refused>
        requires { Joining operator }
        ensures { Leads (level_at depth (suc (strength_of operator))) (level_at depth (strength_of operator)) self.old self.new result }
    {
        let mark = mark(operator);
        while self.next.kind == mark {
            let left = self.draft.count;
            self.look(self.next.stop);
            self.tighter(depth, operator)?;
            self.draft.put_joined(operator, left);
        }
        Ok(())
    }

    // An operand of the operator.
    #[cycle(formula)]
    #[inline(always)]
    fn tighter(&mut self, depth: usize, operator: Operator) -> Result<(), Refused>
        ensures { Reads (level_at depth (suc (strength_of operator))) self.old self.new result }
    {
        match operator {
            Operator::And => self.operand(depth),
            Operator::Or => self.formula(depth, Operator::And),
            Operator::Implies => self.formula(depth, Operator::Or),
            Operator::Alike => self.formula(depth, Operator::Implies),
        }
    }

    // "`=>` groups to the right", and its right side is a level of its own.
    #[cycle(formula)]
    #[inline(always)]
    fn arrow(&mut self, depth: usize) -> Result<(), Refused>
        ensures { Leads (level_at depth 2) (level_at depth 1) self.old self.new result }
    {
        if self.next.kind != Kind::Implies {
            return Ok(());
        }
        let Some(deeper) = depth.checked_sub(1) else {
            return Err(self.refuse_next());
        };
        self.draft.put_not();
        let denied = self.draft.count;
        self.look(self.next.stop);
        self.formula(deeper, Operator::Implies)?;
        self.draft.put_joined(Operator::Implies, denied);
        Ok(())
    }

    // What `~` denies: an atom, or what stands behind a token that opens a level.
    #[cycle(formula)]
    fn operand(&mut self, depth: usize) -> Result<(), Refused>
        ensures { Reads (level_at depth 4) self.old self.new result }
    {
        let Some(opener) = opens(self.next.kind) else {
            return self.atom();
        };
        let Some(deeper) = depth.checked_sub(1) else {
            return Err(self.refuse_next());
        };
        match opener {
            Opener::Bracket => self.bracket(deeper),
            Opener::Quantified(quantifier) => self.quantified(deeper, quantifier),
            Opener::Denial => {
                self.look(self.next.stop);
                self.operand(deeper)?;
                self.draft.put_not();
                Ok(())
            }
        }
    }

    // An opening bracket, a formula and its closing bracket.
    #[cycle(formula)]
    fn bracket(&mut self, depth: usize) -> Result<(), Refused>
        requires { opener_of self.old.next.kind ≡ Some Bracket }
        ensures { Reads (bracket_at depth) self.old self.new result }
    {
        self.look(self.next.stop);
        self.formula(depth, Operator::Alike)?;
        self.close()
    }

    // A quantifier word, what it binds, and the formula that it reaches over. The names in use are copied here alone, which happens at most eight
    // times on the way down: inlined, the copies would lie in every level's frame.
    #[cycle(formula)]
    #[inline(never)]
    fn quantified(&mut self, depth: usize, quantifier: Quantifier) -> Result<(), Refused>
        requires { opener_of self.old.next.kind ≡ Some (Quantified quantifier) }
        ensures { Reads (quantified_at depth quantifier) self.old self.new result }
    {
        let binder = match phrases::read_binder(&self.names, self.next.stop) {
            Ok(binder) => binder,
            Err(fault) => return Err(self.refuse(fault)),
        };
        let name = Name {
            start: binder.start,
            stop: binder.stop,
            order: order(quantifier),
        };
        let outer = self.names;
        let track = outer.count;
        self.names.push(name);
        self.tracks = self.tracks.max(track + 1);
        self.look(binder.next);
        let body = self.formula(depth, Operator::Alike);
        self.names = outer;
        body?;
        self.draft.put_quantified(quantifier, track);
        Ok(())
    }
}
