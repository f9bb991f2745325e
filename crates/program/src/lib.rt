// The verdict program, but for reading and writing: document 01, "The verdict program".
#![tactic(auto)]

ghost use Rattle.std.specs.Prelude.{◌≡◌, ◌+◌, ◌*◌, ◌≤◌, length};
ghost use Rattle.report.specs.Text.{Put};
ghost use Rattle.report.specs.Line.{line_of};
ghost use Rattle.program.specs.Program.{rule_in, Printed};
ghost use Rattle.decide.specs.Decide.{verdict_of, out_of};

// What the program prints: the first `count` bytes. There is no heap to hold a line as long as it is, and `Printed` speaks of both fields.
#[derive(Clone, Copy)]
pub struct Output {
    pub bytes: [u8; 256],
    pub count: usize,
}

// The rule strip of an input: of a longer one the first 300 bytes.
fn rule_in(input: &[u8]) -> &[u8]
    ensures { result.now ≡ rule_in input.now }
{
    input.get(..300).unwrap_or(input)
}

// The verdict's line for a rule with c = 16 and P = 60 stands at the front of `line`.
fn respond(rule: &[u8], ws: &mut [u8], out: &mut [u8], line: &mut [u8]) -> usize
    requires { 50 + 2 * length out.old ≤ length line.old }
    ensures { Put line.old 0
        (line_of (verdict_of rule.now 16 60 (length ws.old) (length out.old))
        (out_of rule.now 16 60 (length ws.old) out.old)) result line.new }
{
    let v = decide::decide(rule, 16, 60, ws, out);
    report::line::write_line(v, out, line)
}

// The line that the program prints for the bytes that it read: with 32,768 bytes of workspace, and an out buffer that holds a
// tree of 60 places at every n.
pub fn verdict_line(input: &[u8]) -> Output
    ensures { Printed input.now result }
{
    let mut ws = [0u8; 32768];
    let mut out = [0u8; 77];
    let mut bytes = [0u8; 256];
    let count = respond(rule_in(input), &mut ws, &mut out, &mut bytes);
    Output { bytes, count }
}
