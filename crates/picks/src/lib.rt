// The picking of the sources.
#![tactic(auto)]

ghost use Rattle.std.specs.Prelude.{◌≡◌, ◌≤◌, ◌<◌, ◌+◌, length, IfOk};
ghost use Rattle.levels.specs.Answer.{refusal_of};
ghost use Rattle.env.specs.Hints.{hint_diff};
ghost use Rattle.picks.specs.Hints.{hint_of, bits_refusal, hints_refusal, saved_diff_of, same_side, closer_of, closest, on_side, some_on_side};
ghost use Rattle.picks.specs.Picks.{Valid, Slots, pushed, offered, with_side, nearer_earlier, in_turn, neighbours, nth_earlier, nth_later, nearest, both_ways, rest};

use levels::{OrderHint, Refusal, Slot};

/// The order hints that were saved with a slot: its references', and how many those are.
#[repr(C)]
#[derive(Clone, Copy)]
pub struct Saved {
    pub ref_poc: [OrderHint; 7],
    pub refcnt: u8,
}

/// The order hints that a header states: the frame's, its slots', and those that were saved with each slot. Any numbers.
// `n_refs` beside the lists of seven, as a header states it: it may be above 7, and refusal 4 is for that.
#[derive(Clone, Copy)]
pub struct Pocs {
    /// How many bits an order hint has.
    pub nbits: u32,
    /// The frame's own hint.
    pub poc: OrderHint,
    /// How many slots are in use, the first of the seven.
    pub n_refs: usize,
    pub ref_poc: [OrderHint; 7],
    pub saved: [Saved; 7],
}

/// The order hints of a header that refusal 3 lets through: at most 8 bits. Any number of slots in use.
#[derive(Clone, Copy)]
pub struct Hints {
    pub pocs: Pocs,

    ghost few_bits: { pocs.nbits ≤ 8 },
}

/// The order hints of a header that refusals 3 and 4 let through: at most 8 bits, and at most seven slots in use.
#[derive(Clone, Copy)]
pub struct FrameHints {
    pub hints: Hints,

    ghost few_slots: { hints.pocs.n_refs ≤ 7 },
}

impl TryFrom<Pocs> for Hints {
    type Error = Refusal;

    ghost try_from_gives = { λ pocs r. (refusal_of r ≡ bits_refusal pocs) × IfOk r (λ h. h.pocs ≡ pocs) };

    #[tactic(auto, unfolding(crate::specs::Hints::bits_refusal))]
    fn try_from(pocs: Pocs) -> Result<Hints, Refusal> {
        if 8 < pocs.nbits {
            return Err(Refusal::TooManyBits);
        }
        Ok(Hints { pocs })
    }
}

impl TryFrom<Pocs> for FrameHints {
    type Error = Refusal;

    ghost try_from_gives = { λ pocs r. (refusal_of r ≡ hints_refusal pocs) × IfOk r (λ h. h.hints.pocs ≡ pocs) };

    #[tactic(auto, unfolding(crate::specs::Hints::hints_refusal, crate::specs::Hints::bits_refusal))]
    fn try_from(pocs: Pocs) -> Result<FrameHints, Refusal> {
        let hints = Hints::try_from(pocs)?;
        if 7 < pocs.n_refs {
            return Err(Refusal::TooManySlots);
        }
        Ok(FrameHints { hints })
    }
}

impl Hints {
    /// From the hint b to the hint a: get_poc_diff, with the header's bits.
    pub fn diff(&self, a: OrderHint, b: OrderHint) -> i32
        ensures { result ≡ hint_diff self.now.pocs.nbits a b }
    {
        env::poc_diff(self.pocs.nbits, a, b)
    }

    /// The hint of a slot.
    pub fn hint(&self, s: Slot) -> OrderHint
        requires { s.0 < 7 }
        ensures { result ≡ hint_of self.now.pocs s.0 }
    {
        self.pocs.ref_poc[s.index()]
    }

    // A slot among the hints.
    fn of_slot(&self, slot: Slot) -> SlotHints<'_>
        requires { slot.0 < 7 }
        ensures slot { result.slot ≡ slot }
        ensures hints { result.hints.now ≡ self.now }
    {
        SlotHints { hints: self, slot }
    }

    // A candidate, if it has a reference on the wanted side.
    #[tactic(auto, unfolding(crate::specs::Picks::with_side))]
    fn with_side(&self, candidate: Option<Slot>, late: bool) -> Option<Slot>
        requires { Valid candidate }
        ensures value { result ≡ with_side self.now.pocs late candidate }
        ensures slot { Valid result }
    {
        candidate.filter(|s| self.of_slot(*s).has_on_side(late))
    }

    // Does the earlier neighbour come first?
    #[tactic(auto, unfolding(crate::specs::Picks::nearer_earlier))]
    fn earlier_first(&self, a: Option<Slot>, b: Option<Slot>) -> bool
        requires earlier { Valid a }
        requires later { Valid b }
        ensures { result ≡ nearer_earlier self.now.pocs a b }
    {
        let (Some(a), Some(b)) = (a, b) else {
            return false;
        };
        self.of_slot(a).abs_closest_ref(false) < self.of_slot(b).abs_closest_ref(true)
    }
}

// A slot, and the hints that it is looked up in. `late` says on which side of it a reference is looked for: later, or with late off earlier.
#[derive(Clone, Copy)]
struct SlotHints<'a> {
    hints: &'a Hints,
    slot: Slot,
    ghost low: { slot.0 < 7 },
}

impl<'a> SlotHints<'a> {
    // From the slot's reference n to the hint a, 0 where the slot has no references: no Option, as 0 lies on neither side, as none does.
    #[tactic(auto, unfolding(crate::specs::Hints::saved_diff_of))]
    fn saved_diff(&self, a: OrderHint, n: usize) -> i32
        requires { n < 7 }
        ensures { result ≡ saved_diff_of self.now.hints.now.pocs a self.now.slot.0 n }
    {
        let saved = &self.hints.pocs.saved[self.slot.index()];
        if saved.refcnt == 0 {
            0
        } else {
            self.hints.diff(a, saved.ref_poc[n])
        }
    }

    // The lesser of b and the distance from the slot to its reference n, where that is on the same side of the slot and of the frame.
    #[tactic(auto, unfolding(crate::specs::Hints::closer_of))]
    fn nearer(&self, late: bool, n: usize, b: u32) -> u32
        requires { n < 7 }
        ensures { result ≡ closer_of self.now.hints.now.pocs self.now.slot.0 late n b }
    {
        let d = self.saved_diff(self.hints.hint(self.slot), n);
        let e = self.saved_diff(self.hints.pocs.poc, n);
        if same_side(d, e, late) {
            b.min(d.unsigned_abs())
        } else {
            b
        }
    }

    // abs_closest_ref: the least such distance, 255 if there is none. No Option: two are compared, and none is farther than any, where None comes before each Some.
    #[tactic(auto, using(loops::proofs::Turns::span_turn, loops::proofs::Turns::span_end), unfolding(crate::specs::Hints::closest))]
    fn abs_closest_ref(&self, late: bool) -> u32
        ensures { result ≡ closest self.now.hints.now.pocs self.now.slot.0 late }
    {
        // By number: a reference's number is what `nearer` takes.
        let mut b: u32 = 255;
        for n in 0..7 {
            b = self.nearer(late, n, b);
        }
        b
    }

    // Is the slot's reference n later than the slot, or with late off earlier?
    #[tactic(auto, unfolding(crate::specs::Hints::on_side))]
    fn is_on_side(&self, late: bool, n: usize) -> bool
        requires { n < 7 }
        ensures { result ≡ on_side self.now.hints.now.pocs self.now.slot.0 late n }
    {
        let d = self.saved_diff(self.hints.hint(self.slot), n);
        if late { d < 0 } else { 0 < d }
    }

    // have_ref_sign: has the slot a reference later than itself, or with late off an earlier one?
    #[tactic(auto, unfolding(crate::specs::Hints::some_on_side))]
    fn has_on_side(&self, late: bool) -> bool
        ensures { result ≡ some_on_side self.now.hints.now.pocs self.now.slot.0 late }
    {
        (0..7).any(|n| self.is_on_side(late, n))
    }
}

// Are both differences above 0, or with late off both below?
fn same_side(d: i32, e: i32, late: bool) -> bool
    ensures { result ≡ same_side d e late }
{
    if late { 0 < d && 0 < e } else { d < 0 && e < 0 }
}

/// A source that is picked: its slot, its target slot or `None` for any, and the direction, 1 or 0.
// The direction is a byte, as in C's record, and no enum of two: of any byte a source's entries are found (`source_of` of entry), and it is an index: of a
// saved block's two references and vectors, and here of what is taken.
#[derive(Clone, Copy)]
pub struct MfmvRef {
    pub reference: Slot,
    pub tgt: Option<Slot>,
    pub dir: u8,
}

/// The sources so far, and which of a slot's two directions are taken: 2 * slot + direction.
// Four entries and their number, as the setup's record has them, and no `ArrayVec`: of that a clause sees the items alone, so the definitions, which
// make picks (`started`, `pushed`), would need a record of their own beside this one.
#[derive(Clone, Copy)]
pub struct Picks {
    pub list: [MfmvRef; 4],
    pub count: usize,
    // One list: two indices, in lists of two, would be made of the same slot and direction.
    pub taken: [bool; 14],
}

impl Picks {
    /// Appends a source, and takes its slot in its direction.
    pub fn push(&mut self, source: MfmvRef)
        requires room { self.old.count < 4 }
        requires slot { source.reference.0 < 7 }
        requires direction { source.dir < 2 }
        ensures { self.new ≡ pushed source self.old }
    {
        self.list[self.count] = source;
        self.taken[source.reference.index() * 2 + usize::from(source.dir)] = true;
        self.count += 1;
    }

    // Appends a slot in a direction, if it is not taken and fewer than `limit` sources are there.
    #[tactic(auto, unfolding(crate::specs::Picks::offered))]
    fn offer(&mut self, limit: usize, slot: Option<Slot>, dir: u8)
        requires few { limit ≤ 4 }
        requires slot { Valid slot }
        requires direction { dir < 2 }
        ensures { self.new ≡ offered limit slot dir self.old }
    {
        let Some(reference) = slot else {
            return;
        };
        if self.count < limit && !self.taken[reference.index() * 2 + usize::from(dir)] {
            self.push(MfmvRef {
                reference,
                tgt: None,
                dir,
            });
        }
    }

    // Both neighbours, the nearer first.
    #[tactic(auto, unfolding(crate::specs::Picks::in_turn))]
    fn in_turn(&mut self, h: &Hints, a: Option<Slot>, b: Option<Slot>)
        requires earlier { Valid a }
        requires later { Valid b }
        ensures { self.new ≡ in_turn h.now.pocs a b self.old }
    {
        if h.earlier_first(a, b) {
            self.offer(3, a, 1);
            self.offer(3, b, 0);
        } else {
            self.offer(3, b, 0);
            self.offer(3, a, 1);
        }
    }

    /// Two rounds of the neighbours of the frame in the sorted order: up to three sources.
    #[tactic(auto, using(loops::proofs::Turns::span_turn, loops::proofs::Turns::span_end), unfolding(crate::specs::Picks::neighbours))]
    pub fn pick_neighbours(&mut self, h: &FrameHints, sorted: &Sorted)
        ensures { self.new ≡ neighbours h.now.hints.pocs sorted.now.order sorted.now.first self.old }
    {
        let hints = &h.hints;
        // By number: a round's number says which neighbours it takes.
        for n in 0..2 {
            let a = hints.with_side(sorted.nth_earlier(n + 1), true);
            let b = hints.with_side(sorted.nth_later(hints.pocs.n_refs, n), false);
            self.in_turn(hints, a, b);
        }
    }

    /// The two nearest earlier slots: up to three sources.
    #[tactic(auto, unfolding(crate::specs::Picks::nearest))]
    pub fn pick_nearest(&mut self, sorted: &Sorted)
        ensures { self.new ≡ nearest sorted.now.order sorted.now.first self.old }
    {
        self.offer(3, sorted.nth_earlier(1), 0);
        self.offer(3, sorted.nth_earlier(2), 0);
    }

    // A slot's two directions, the one towards the frame first.
    #[tactic(auto, unfolding(crate::specs::Picks::both_ways))]
    fn both_ways(&mut self, diffs: &[i8; 7], s: Slot)
        requires { s.0 < 7 }
        ensures { self.new ≡ both_ways diffs.now s self.old }
    {
        let first = u8::from(0 <= diffs[s.index()]);
        self.offer(4, Some(s), first);
        self.offer(4, Some(s), 1 - first);
    }

    /// The slots of the dependency order, from its end: up to four sources.
    #[tactic(auto, using(loops::proofs::Turns::span_turn, loops::proofs::Turns::span_end), unfolding(crate::specs::Picks::rest))]
    pub fn pick_rest(&mut self, diffs: &[i8; 7], list: &[Slot])
        requires { Slots list.now }
        ensures { self.new ≡ rest diffs.now list.now (length list.now) self.old }
    {
        for s in list.iter().rev() {
            self.both_ways(diffs, *s);
        }
    }
}

/// Seven slots in the order in which neighbours are looked for. That they are sorted is not asked.
#[derive(Clone, Copy)]
pub struct Sorted {
    pub order: [Slot; 7],
    /// How many stand before the frame, the first ones.
    pub first: usize,
    ghost few: { first ≤ 7 },
    ghost slots: { Slots order },
}

impl Sorted {
    // The k-th slot before the first later one.
    #[tactic(auto, unfolding(crate::specs::Picks::nth_earlier))]
    fn nth_earlier(&self, k: usize) -> Option<Slot>
        requires { 0 < k }
        ensures value { result ≡ nth_earlier self.now.order self.now.first k }
        ensures slot { Valid result }
    {
        Some(self.order[self.first.checked_sub(k)?])
    }

    // The n-th slot from the first later one on, of `count` in use, counted from 0.
    #[tactic(auto, unfolding(crate::specs::Picks::nth_later))]
    fn nth_later(&self, count: usize, n: usize) -> Option<Slot>
        requires count { count ≤ 7 }
        requires counted { n ≤ 7 }
        ensures value { result ≡ nth_later self.now.order self.now.first count n }
        ensures slot { Valid result }
    {
        self.order[..count].get(self.first + n).copied()
    }
}
