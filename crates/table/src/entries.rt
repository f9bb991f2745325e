// The entries of tables, and the labels that they stand at.
ghost use Rattle.std.specs.Prelude.{◌≡◌, ◌≤◌, ◌<◌, [], ◌∷◌};
ghost use Rattle.layout.specs.Shape.{Shaped, labels_in};
ghost use Rattle.table.specs.Entry.{Within, entry, step_in, off};

use layout::Shape;

// The entry for label l and states i and j of the table that starts at a; 0 past the end.
pub fn entry_at(low: &[u8], sh: Shape, a: usize, l: usize, i: usize, j: usize) -> u64
    requires shaped { Shaped sh }
    requires l_bound { (l < 512) × (i < 64) × (j < 64) × (a < 4294967296) }
    ensures { (result ≡ entry sh low.now a l (i ∷ j ∷ [])) × (result < 256) }
{
    let k = a + layout::place(sh, l, i, j);
    u64::from(low.get(k).copied().unwrap_or(0))
}

// The entry for label l and states i and j of the table that starts at a, which lies within `low`. Its place is that of the label's first
// entry and of the states together, so that a loop over states need not reckon the label's again.
pub fn entry_within(low: &[u8], sh: Shape, a: usize, l: usize, i: usize, j: usize) -> u64
    requires within { Within sh low.now a }
    requires l_bound { (l < labels_in sh) × (i < sh.ceiling) × (j < sh.ceiling) }
    ensures { result ≡ entry sh low.now a l (i ∷ j ∷ []) }
{
    let first = a + layout::place(sh, l, 0, 0);
    u64::from(low[first + layout::place(sh, 0, i, j)])
}

// The step of the machine whose table starts at a, for label l and states i and j: the entry at the label with no bit but those that it
// looks at.
pub fn step_in(low: &[u8], sh: Shape, a: usize, looks: usize, l: usize, i: usize, j: usize) -> usize
    requires within { Within sh low.now a }
    requires l_bound { (l < labels_in sh) × (i < sh.ceiling) × (j < sh.ceiling) }
    ensures { result ≡ step_in sh low.now a looks l (i ∷ j ∷ []) }
{
    entry_within(low, sh, a, l & looks, i, j) as usize
}

// The label l with the bit of weight w cleared.
pub fn cleared(w: usize, l: usize) -> usize
    requires { (0 < w) × (w ≤ 128) }
    ensures { (result ≡ off w l) × (result ≤ l) }
{
    l / (2 * w) * (2 * w) + l % w
}
