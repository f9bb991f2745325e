// The room that machines and strips take, and the refusals for want of it.
ghost use Rattle.std.specs.Prelude.{Ok, ◌≡◌, ◌≤◌, ◌<◌};
ghost use Rattle.tree_strip.specs.TreeStrip.{tree_bytes};
ghost use Rattle.rules.specs.Room.{room_for, ceiling_refusal, places_refusal, workspace_refusal, out_refusal, work_refusal};

use refusals::{Reason, Refusal};

// The bytes of workspace that m records of n variables and c states take.
#[tactic(auto, using(crate::proofs::Rooms::shaped, crate::proofs::Rooms::room_shares))]
pub fn needed(n: usize, m: usize, c: usize) -> usize
    requires { (1 ≤ n) × (n ≤ 8) × (m < 256) × (1 ≤ c) × (c ≤ 64) }
    ensures { result ≡ room_for n m c }
{
    layout::share_at(layout::shape_for(n, c), m)
}

// The bytes of the strip of a tree of p positions over n variables.
#[tactic(auto, using(crate::proofs::Rooms::strip_few))]
pub fn strip_bytes(n: usize, p: usize) -> usize
    requires { (n ≤ 8) × (p ≤ 255) }
    ensures { result ≡ tree_bytes n p }
{
    (8 + p * (n + 1) + p + 1 + 7) / 8
}

// 11, for the state ceiling.
#[tactic(auto, unfolding(crate::specs::Room::ceiling_refusal))]
pub fn ceiling_refusal(c: u64) -> Result<(), Reason>
    ensures { result ≡ ceiling_refusal c }
{
    if (1..=64).contains(&c) {
        return Ok(());
    }
    Err(Reason::Ceiling)
}

// 11, for the place ceiling.
#[tactic(auto, unfolding(crate::specs::Room::places_refusal))]
pub fn places_refusal(p: u64) -> Result<(), Reason>
    ensures { result ≡ places_refusal p }
{
    if 255 < p {
        return Err(Reason::Ceiling);
    }
    Ok(())
}

// 12, for the machines of m records: those of the strip, or more where an operation builds more.
#[tactic(auto, unfolding(crate::specs::Room::workspace_refusal))]
pub fn workspace_refusal(n: usize, m: usize, c: usize, room: usize) -> Result<(), Reason>
    requires { (1 ≤ n) × (n ≤ 8) × (m < 256) × (1 ≤ c) × (c ≤ 64) }
    ensures { result ≡ workspace_refusal n m c room }
{
    if room < needed(n, m, c) {
        return Err(Reason::Workspace);
    }
    Ok(())
}

// 11 for the state ceiling, and then 12: what every operation tests that builds machines.
#[tactic(auto, unfolding(crate::specs::Room::work_refusal), using(crate::proofs::Rooms::ceiling_free))]
pub fn work_refusal(n: usize, m: usize, c: u64, room: usize) -> Result<(), Refusal>
    requires { (1 ≤ n) × (n ≤ 8) × (m < 256) }
    ensures { result ≡ work_refusal n m c room (Ok tt) }
{
    ceiling_refusal(c)?;
    workspace_refusal(n, m, c as usize, room)?;
    Ok(())
}

// 13, for a tree of p positions.
#[tactic(auto, unfolding(crate::specs::Room::out_refusal))]
pub fn out_refusal(n: usize, p: usize, room: usize) -> Result<(), Reason>
    requires { (n ≤ 8) × (p ≤ 255) }
    ensures { result ≡ out_refusal n p room }
{
    if room < strip_bytes(n, p) {
        return Err(Reason::Out);
    }
    Ok(())
}
