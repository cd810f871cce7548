// Mixed radix on arrays: the index that a plan's counters tell, along the axes in the order they were fused in, and the counters of such an
// index. An axis whose fused extent is 1 has joined the one before it, or is dropped.
ghost use Rattle.std.specs.Prelude.{◌≡◌, ◌&&◌, ◌/◌, ◌%◌, ◌≤◌, ◌<◌, ltb, length, get_or, take};
ghost use Rattle.strided.specs.Base.{padded};
ghost use Rattle.strided.specs.Layout.{NoZero, Within, within};
ghost use Rattle.finding.specs.Mapped.{kept_extents, unraveled, raveled, Sound, sound_prop};

// ---- ranges

// Whether there is a counter j, and it lies below an extent.
fn below(counters: &[u64], j: usize, extent: u64) -> bool
    ensures { result ≡ (ltb j (length counters.now) && ltb (get_or counters.now j 0) extent) }
{
    j < counters.len() && counters[j] < extent
}

// Whether counters have a place for each of the plan's axes, and lie below its extent: where no axis is kept, one of extent 1 stays.
pub fn plan_within(fused: &[u64], counters: &[u64]) -> bool
    ensures { result ≡ within (kept_extents fused.now) counters.now }
{
    let mut j: usize = 0;
    for f in fused {
        if *f != 1 {
            if !below(counters, j, *f) {
                return false;
            }
            j += 1;
        }
    }
    if j == 0 && !fused.is_empty() {
        return counters.len() == 1 && below(counters, 0, 1);
    }
    j == counters.len()
}

// How many axes the plan has.
// Kept: tried as `filter(..).count()`. `count` tells of the runs of its iterator, and that such a run is `kept_extents` was not proved.
pub fn plan_rank(fused: &[u64]) -> usize
    ensures { result ≡ length (kept_extents fused.now) }
{
    let mut count: usize = 0;
    for f in fused {
        if *f != 1 {
            count += 1;
        }
    }
    if count == 0 && !fused.is_empty() {
        return 1;
    }
    count
}

// ---- the two ways

// Counter j, or 0 where there are not so many.
fn counter(counters: &[u64], j: usize) -> u64
    ensures { result ≡ get_or counters.now j 0 }
{
    counters.get(j).copied().unwrap_or(0)
}

// What is left of x on an axis of extent e, and what goes to the next one. Most axes are alone, and x is not divided there.
fn remainder(x: u64, e: u64) -> u64
    requires { 0 < e }
    ensures { result ≡ x % e }
{
    if x < e { x } else { x % e }
}

pub fn quotient(x: u64, e: u64) -> u64
    requires { 0 < e }
    ensures { result ≡ x / e }
{
    if x < e { 0 } else { x / e }
}

// A map that is lent, with the extents of its layout.
#[derive(Clone, Copy)]
pub struct LentMap<'a> {
    pub extents: &'a [u64],
    pub order: &'a [usize; 64],
    pub fused: &'a [u64; 64],
    pub ghost sound: { Sound extents.now order.now fused.now } by { sound_prop extents.now order.now fused.now },
}

impl<'a> LentMap<'a> {
    // The fused extents, in the order of fusing.
    pub fn plan_fused(self) -> &'a [u64]
        ensures { result.now ≡ take (length self.entry.extents.now) self.entry.fused.now }
    {
        let fused = self.fused;
        &fused[..self.extents.len()]
    }

    // The index that the counters tell, quickest the axis that came first, written into an array.
    pub fn unravel_index(self, counters: &[u64], out: &mut [u64; 64])
        requires { NoZero self.extents.now }
        ensures { out.new ≡ padded 64 0 (unraveled self.entry.extents.now self.entry.order.now self.entry.fused.now counters.now) }
    {
        *out = [0u64; 64];
        let mut x: u64 = 0;
        let mut j: usize = 0;
        for i in 0..self.extents.len() {
            if self.fused[i] != 1 {
                x = counter(counters, j);
                j += 1;
            }
            let a = self.order[i];
            out[a] = remainder(x, self.extents[a]);
            x = quotient(x, self.extents[a]);
        }
    }

    // The counters of an index, from the last axis down, written into an array: what an axis leaves goes to the one that it joined.
    // Kept: `rank`, the plan's, beside the map: who calls has counted it for the answer, and would pay a second pass.
    pub fn ravel_index(self, rank: usize, index: &[u64], out: &mut [u64; 64])
        requires rank { rank ≡ length (kept_extents (take (length self.extents.now) self.fused.now)) }
        requires inside { Within self.extents.now index.now }
        ensures { out.new ≡ padded 64 0 (raveled self.entry.extents.now self.entry.order.now self.entry.fused.now index.now) }
    {
        *out = [0u64; 64];
        let mut z: u64 = 0;
        let mut j = rank;
        for i in (0..self.extents.len()).rev() {
            let a = self.order[i];
            z = z * self.extents[a] + index[a];
            if self.fused[i] != 1 {
                j -= 1;
                out[j] = z;
                z = 0;
            }
        }
    }
}
