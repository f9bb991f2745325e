// The line of a verdict: document 01, "The verdict program".
ghost use Rattle.std.specs.Prelude.{◌≡◌, ◌++◌, ◌+◌, ◌*◌, ◌≤◌, length, take};
ghost use Rattle.report.specs.Text.{Put, Wrote};
ghost use Rattle.report.specs.Line.{counted, space, shown_line, numbered_line, refused_line, line_of, line_end};

use crate::text::Line;
use decide::Verdict;
use refusals::Refusal;

impl Line<'_> {
    // A word with a number after it.
    fn put_counted(&mut self, word: &[u8], n: u64)
        requires { self.old.at + length word.now + 20 ≤ length self.old.bytes.now }
        ensures put { Wrote self.old (counted word.now n) self.new }
        ensures upper_bound { self.new.at ≤ self.old.at + length word.now + 20 }
    {
        self.put_bytes(word);
        self.put_decimal(20, n);
    }

    // A word and a number, and the line's end.
    fn put_count(&mut self, word: &[u8], n: u64)
        requires { self.old.at + length word.now + 21 ≤ length self.old.bytes.now }
        ensures { Wrote self.old (counted word.now n ++ line_end) self.new }
    {
        self.put_counted(word, n);
        self.put_bytes(b"\n");
    }

    // A word and two numbers, and the line's end.
    fn put_counts(&mut self, word: &[u8], n: u64, m: u64)
        requires { self.old.at + length word.now + 42 ≤ length self.old.bytes.now }
        ensures { Wrote self.old (counted word.now n ++ (counted space m ++ line_end)) self.new }
    {
        self.put_counted(word, n);
        self.put_count(b" ", m);
    }

    // The line of a shown tree, by its strip.
    fn put_shown(&mut self, positions: u64, states: u64, strip: &[u8])
        requires { self.old.at + 49 + 2 * length strip.now ≤ length self.old.bytes.now }
        ensures { Wrote self.old (shown_line positions states strip.now) self.new }
    {
        self.put_counted(b"shown ", positions);
        self.put_counted(b" ", states);
        self.put_bytes(b" ");
        self.put_hex(strip);
        self.put_bytes(b"\n");
    }

    // The line of a refusal by its number, with the bit place that it names, if it names one.
    #[tactic(auto, unfolding(crate::specs::Line::numbered_line))]
    fn put_refused(&mut self, number: u64, place: Option<u64>)
        requires { self.old.at + 50 ≤ length self.old.bytes.now }
        ensures { Wrote self.old (numbered_line number place) self.new }
    {
        match place {
            Some(place) => self.put_counts(b"refused ", number, place),
            None => self.put_count(b"refused ", number),
        }
    }

    // The line of a refusal.
    #[tactic(auto, unfolding(crate::specs::Line::refused_line))]
    fn put_refusal(&mut self, r: Refusal)
        requires { self.old.at + 50 ≤ length self.old.bytes.now }
        ensures { Wrote self.old (refused_line r) self.new }
    {
        match r {
            Refusal::Placed(fault) => self.put_refused(fault.reason.number(), Some(fault.place)),
            Refusal::Plain(reason) => self.put_refused(reason.number(), None),
            Refusal::TooManyStates(record) => self.put_count(b"refused 14 ", record),
        }
    }

    // The line of a verdict; out is the buffer that decide wrote to.
    #[tactic(auto, unfolding(crate::specs::Line::line_of))]
    fn put_verdict(&mut self, v: Result<Verdict, Refusal>, out: &[u8])
        requires { self.old.at + 50 + 2 * length out.now ≤ length self.old.bytes.now }
        ensures { Wrote self.old (line_of v out.now) self.new }
    {
        match v {
            Ok(
                Verdict::Shown {
                    positions,
                    states,
                    length,
                },
            ) => self.put_shown(positions, states, front(out, length)),
            Ok(Verdict::None(states)) => self.put_count(b"none ", states),
            Ok(Verdict::Larger(states)) => self.put_count(b"larger ", states),
            Err(refusal) => self.put_refusal(refusal),
        }
    }
}

// The front of out, as many bytes as size says.
fn front(out: &[u8], size: u64) -> &[u8]
    ensures { result.now ≡ take size out.now }
{
    out.get(..size as usize).unwrap_or(out)
}

// The line of a refusal by its number, whichever it is, with the bit place that it names, if it names one, stands at the front of `line`.
// Its length is answered.
pub fn write_refusal(number: u64, place: Option<u64>, line: &mut [u8]) -> usize
    requires { 50 ≤ length line.old }
    ensures { Put line.old 0 (numbered_line number place) result line.new }
{
    let mut line = Line { bytes: line, at: 0 };
    line.put_refused(number, place);
    line.at
}

// The line of a verdict stands at the front of `line`; out is the buffer that decide wrote to. Its length is answered.
pub fn write_line(v: Result<Verdict, Refusal>, out: &[u8], line: &mut [u8]) -> usize
    requires { 50 + 2 * length out.now ≤ length line.old }
    ensures { Put line.old 0 (line_of v out.now) result line.new }
{
    let mut line = Line { bytes: line, at: 0 };
    line.put_verdict(v, out);
    line.at
}
