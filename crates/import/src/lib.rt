// A rule typed as text, written as a rule strip: request A2.
#![tactic(auto)]

ghost use Rattle.std.specs.Prelude.{◌≡◌, [], length};
ghost use Rattle.text.specs.Grammar.{text_of};
ghost use Rattle.text.specs.Import.{import, out_after_import};
ghost use Rattle.tokens.specs.Tokens.{tokens_at, StandsNext};
ghost use Rattle.drafting.specs.Draft.{Drafted};
ghost use Rattle.import.specs.Answers.{HeadingTold, Ends, FreePut, body_of, TextTold, imported_of, fault_at, fault_of, Claimed};

use drafting::{Draft, Operator};
use formulas::Reader;
use refusals::Reason;
use rule_strip::write::Written;
use text::kinds::Kind;
use tokens::TokenFault;
use tokens::names::{Names, Order};

pub mod numbers; // what C is told

// Why a text is refused, and the token at which that lies: where it starts, and how many bytes it has.
#[derive(Clone, Copy, Debug, PartialEq, Eq)]
pub struct TextFault {
    pub reason: Reason,
    pub start: usize,
    pub length: usize,
}

impl From<TokenFault> for TextFault {
    ghost from_gives = { λ x r. r ≡ fault_at x };

    fn from(fault: TokenFault) -> TextFault {
        TextFault {
            reason: fault.reason,
            start: fault.start,
            length: fault.stop.saturating_sub(fault.start),
        }
    }
}

// "nest at most 32 deep"
const DEPTH: usize = 32;

// "the heading `ws2s;`", whose word stands next: the place behind it.
fn read_heading(reader: &Reader) -> Result<usize, TokenFault>
    requires { StandsNext reader.now.names.text.now 0 reader.now.next }
    ensures { HeadingTold reader.now.names.text.now result }
{
    if reader.next.kind != Kind::Ws2s {
        return Err(reader.next.refused(Reason::TextGrammar));
    }
    phrases::read_mark(reader.names.text, Kind::Semicolon, reader.next.stop)
}

// "ended by a semicolon", and nothing behind it.
fn end(reader: &mut Reader) -> Result<(), TokenFault>
    ensures { Ends reader.old reader.new result }
{
    if reader.next.kind != Kind::Semicolon {
        return Err(reader.next.refused(Reason::TextGrammar));
    }
    reader.look(reader.next.stop);
    if reader.next.kind != Kind::End {
        return Err(reader.next.refused(Reason::TextGrammar));
    }
    Ok(())
}

// "each free first-order variable two more", in order of declaration.
fn put_free(draft: &mut Draft, names: &Names)
    ensures { FreePut names.now draft.old draft.new }
{
    for track in 0..names.count {
        let name = names.entries[track];
        if name.order == Order::First {
            draft.put_single(track);
        }
    }
}

// The declarations, the formula and the end, from a place on.
fn read_body(reader: &mut Reader, at: usize) -> Result<(), TokenFault>
    requires { Drafted reader.old.draft [] }
    ensures { TextTold reader.new (body_of (tokens_at reader.old.names.text.now at)) result }
{
    let declared = phrases::read_declarations(reader.names.text, at)?;
    reader.names = declared.names;
    reader.tracks = declared.names.count;
    reader.look(declared.next);
    match reader.formula(DEPTH, Operator::Alike) {
        Ok(()) => end(reader)?,
        Err(_) => return Err(reader.fault),
    }
    put_free(&mut reader.draft, &reader.names);
    Ok(())
}

// A whole text, from its first token on.
fn read_text(reader: &mut Reader) -> Result<(), TokenFault>
    requires first { StandsNext reader.old.names.text.now 0 reader.old.next }
    requires none { Drafted reader.old.draft [] }
    ensures { TextTold reader.new (text_of reader.old.names.text.now) result }
{
    let next = read_heading(reader)?;
    read_body(reader, next)
}

// The rule that a text says, as a strip at the front of out.
pub fn import_text(text: &[u8], out: &mut [u8]) -> Result<Written, Reason>
    ensures result_value { result ≡ imported_of (import text.now (length out.old)) }
    ensures out_after { out.new ≡ out_after_import (import text.now (length out.old)) out.old }
    ensures claimed { Claimed text.now result out.new }
{
    if out.len() < 290 {
        return Err(Reason::RuleOut);
    }
    let mut reader = Reader::new(text);
    // No `map_err`: tried, the proof does not reach what the closure says.
    if let Err(fault) = read_text(&mut reader) {
        return Err(fault.reason);
    }
    let records = reader.draft.count;
    if 128 < records {
        return Err(Reason::TextRecords);
    }
    Ok(rule_strip::write::write_rule(out, reader.tracks, &reader.draft.words[..records]))
}

// Why a text is refused, when out has room, and at which token.
pub fn text_fault(text: &[u8]) -> Result<(), TextFault>
    ensures { result ≡ fault_of (text_of text.now) }
{
    let mut reader = Reader::new(text);
    read_text(&mut reader)?;
    if 128 < reader.draft.count {
        return Err(TextFault {
            reason: Reason::TextRecords,
            start: 0,
            length: 0,
        });
    }
    Ok(())
}
