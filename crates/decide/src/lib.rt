// Decide: from the bytes of a rule strip to the bytes in out.
#![tactic(auto)]

ghost use Rattle.std.specs.Prelude.{Ok, ◌≡◌, ◌≤◌, length, drop};
ghost use Rattle.logic.specs.Decide.{report};
ghost use Rattle.search.specs.Rounds.{answer_of, Ended};
ghost use Rattle.rule_strip.specs.RuleStrip.{variables_of};
ghost use Rattle.tree_strip.specs.TreeStrip.{tree_bytes};
ghost use Rattle.rules.specs.Room.{room_of, Workable};
ghost use Rattle.decide.specs.Decide.{room_refusal, decide_refusal, decided_of, outcome_verdict, out_after_answer, Spacious};
ghost use Rattle.decide.specs.Decide.{verdict_of, workspace_of, out_of, DecideClaim, ShowsShallow};

use refusals::Refusal;
use search::Found;

pub mod numbers; // what C is told

// Decide's answer where nothing refuses: the tree shown in out, with its positions, the states of the last record and the strip's length;
// or none or larger, with the states.
#[derive(Clone, Copy, Debug, PartialEq, Eq)]
pub enum Verdict {
    Shown {
        positions: u64,
        states: u64,
        length: u64,
    },
    None(u64),
    Larger(u64),
}

// The refusals 11 to 13 of an accepted strip of m records over n variables.
#[tactic(auto, unfolding(crate::specs::Decide::room_refusal), using(rules::proofs::Rooms::places_free, rules::proofs::Rooms::work_then))]
fn room_refusal(
    n: usize,
    m: usize,
    c: u64,
    p: u64,
    room: usize,
    outroom: usize,
) -> Result<(), Refusal>
    requires { (1 ≤ n) × (n ≤ 8) × (m ≤ 128) }
    ensures { result ≡ room_refusal n m c p room outroom }
{
    rules::room::places_refusal(p)?;
    rules::room::work_refusal(n, m, c, room)?;
    rules::room::out_refusal(n, p as usize, outroom)?;
    Ok(())
}

// The refusals that are tested before anything is built.
#[tactic(auto, unfolding(crate::specs::Decide::decide_refusal), using(rules::proofs::Checks::rule_refused))]
fn decide_refusal(rule: &[u8], c: u64, p: u64, room: usize, outroom: usize) -> Result<(), Refusal>
    ensures { result ≡ decide_refusal rule.now c p room outroom }
{
    let size = rule_strip::check_rule(rule)?;
    room_refusal(size.variables, size.records, c, p, room, outroom)
}

// The answer that a search over a machine of so many states stands for; the tree that it found is written to the front of out.
#[tactic(auto, unfolding(logic::specs::Decide::report, crate::specs::Decide::outcome_verdict, crate::specs::Decide::out_after_answer))]
pub fn conclude(n: usize, states: u64, f: Found, out: &mut [u8]) -> Verdict
    requires { (n ≤ 8) × Ended (answer_of f) f × Spacious n (report states (answer_of f)) (length out.old) }
    ensures value { Ok result ≡ outcome_verdict n (report states (answer_of f)) }
    ensures out_after { out.new ≡ out_after_answer n (report states (answer_of f)) out.old }
{
    match f {
        Found::None => Verdict::None(states),
        Found::Larger => Verdict::Larger(states),
        Found::Shown(earliest) => {
            let positions = earliest.positions;
            let len = rules::room::strip_bytes(n, positions as usize);
            tree_strip::write::write_strip(
                &mut out[..len],
                n,
                &earliest.ranks,
                earliest.ranks.count - 1,
            );
            Verdict::Shown {
                positions,
                states,
                length: len as u64,
            }
        }
    }
}

// The answer to an accepted strip, for which there is room: 14, or what is read off the last record's machine.
#[tactic(auto, using(rules::proofs::Rules::rule_long))]
fn decide_accepted(
    rule: &[u8],
    c: usize,
    p: u64,
    ws: &mut [u8],
    out: &mut [u8],
) -> Result<Verdict, Refusal>
    requires workable { Workable rule.now c (length ws.old) }
    requires p_bound { (p ≤ 255) × (tree_bytes (variables_of rule.now) p ≤ length out.old) }
    ensures value { result ≡ outcome_verdict (variables_of rule.now) (decided_of rule.now c p) }
    ensures out_after { out.new ≡ out_after_answer (variables_of rule.now) (decided_of rule.now c p) out.old }
    ensures ws_unchanged { drop (room_of rule.now c) ws.new ≡ drop (room_of rule.now c) ws.old }
{
    let k = rules::build::build_rule(rule, c, ws)?;
    let f = rules::read::earliest(rule, c, ws, k, p);
    Ok(conclude(rule_strip::variables_of(rule), k.count as u64, f, out))
}

// Decide a rule with the state ceiling c and the place ceiling p: any bytes, any ceilings, any buffers.
pub fn decide(
    rule: &[u8],
    c: u64,
    p: u64,
    ws: &mut [u8],
    out: &mut [u8],
) -> Result<Verdict, Refusal>
    ensures value { result ≡ verdict_of rule.now c p (length ws.old) (length out.old) }
    ensures ws_after { ws.new ≡ workspace_of rule.now c p ws.old (length out.old) }
    ensures out_after { out.new ≡ out_of rule.now c p (length ws.old) out.old }
    ensures decide_claim { DecideClaim rule.now c p (length ws.old) (length out.old) result out.new }
    ensures shows_shallow { ShowsShallow c result out.new }
{
    decide_refusal(rule, c, p, ws.len(), out.len())?;
    // No `?` here: the workspace is cleared whatever the answer is.
    let verdict = decide_accepted(rule, c as usize, p, ws, out);
    rules::build::clear_work(rule, 0, c as usize, ws);
    verdict
}
