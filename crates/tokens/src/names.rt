// The names in use, as spans of the text: document 01, "How trainers type a rule".
ghost use Rattle.std.specs.Prelude.{◌≡◌, ◌<◌};
ghost use Rattle.text.specs.Token.{same_bytes};
ghost use Rattle.tokens.specs.Spans.{part, Span};
ghost use Rattle.tokens.specs.Named.{NamesFit};

// What a name stands for: a place, or a set.
#[derive(Clone, Copy, Debug, PartialEq, Eq)]
pub enum Order {
    First,
    Second,
}

// A name, by the byte places of the text where it starts and ends.
#[derive(Clone, Copy)]
pub struct Name {
    pub start: usize,
    pub stop: usize,
    pub order: Order,
}

// The names in use in a text, the latest last. A name's track is its number.
#[derive(Clone, Copy)]
pub struct Names<'t> {
    pub text: &'t [u8],
    pub entries: [Name; 8],
    pub count: usize,
    pub ghost fit: { NamesFit text.now entries count },
}

// Have two spans the same bytes?
#[tactic(auto, using(crate::proofs::Scopes::same_pointwise))]
fn same(a: &[u8], b: &[u8]) -> bool
    ensures { result ≡ same_bytes a.now b.now }
{
    a == b
}

impl<'t> Names<'t> {
    ghost use Rattle.tokens.specs.InUse.{scope_of, Found, Bound};

    // No names.
    pub fn new(text: &'t [u8]) -> Names<'t>
        ensures text_value { result.text.now ≡ text.now }
        ensures none { result.count ≡ 0 }
    {
        let none = Name {
            start: 0,
            stop: 0,
            order: Order::First,
        };
        Names {
            text,
            entries: [none; 8],
            count: 0,
        }
    }

    // The track of the latest name with the bytes of a span, if there is one.
    pub fn find(&self, start: usize, stop: usize) -> Option<usize>
        requires { Span self.now.text.now start stop }
        ensures { Found self.now (part self.now.text.now start stop) result }
    {
        for i in (0..self.count).rev() {
            let name = self.entries[i];
            if same(&self.text[start..stop], &self.text[name.start..name.stop]) {
                return Some(i);
            }
        }
        None
    }

    // One name more, the latest.
    pub fn push(&mut self, name: Name)
        requires few { self.old.count < 8 }
        requires span { Span self.old.text.now name.start name.stop }
        ensures { Bound self.old name self.new }
    {
        self.entries[self.count] = name;
        self.count += 1;
    }
}
