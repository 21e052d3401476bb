// Rates from a workshop log (document 02, S-12): a record of the latest stays, with the count of each pair of states and the hours in each state.
//
// A record is known by the stays that were offered to it (`Comes`). Its fields are closed to other crates, and what holds of every record is the type's
// invariant: it keeps its last stays with their tally (`Keeps`).
#![tactic(auto)]

ghost use Rattle.std.specs.Prelude.{◌≡◌, ◌+◌, ◌*◌, ◌-◌, ◌<◌, ◌≤◌, length, eqb};
ghost use Rattle.definitions.specs.Sums.{pick};
ghost use Rattle.definitions.specs.Rules.{answer_of, judged_by};
ghost use Rattle.definitions.specs.Stays.{stay_of, no_pair, start_rows, pair_rows, stay_rows, rate_of};
ghost use Rattle.laws.specs.StayLaws.{Fine};
ghost use Rattle.stays.specs.Latest.{empty, left, entered, pushed};
ghost use Rattle.stays.specs.Ring.{following, stay_in};
ghost use Rattle.stays.specs.Claims.{StartClaim, StayClaim, RateClaim};

use definitions::Refusal;
use std::marker::Model;

// The largest window size, and the most hours of a stay.

const MOST_WINDOW: u64 = 256;

const MOST_HOURS: u64 = 10_000;

// A stay as the ring keeps it.
#[derive(Clone, Copy)]
struct Kept {
    from: u8,
    to: u8,
    span: u16,
}

// M and the window size, as the start fixed them; a ring, of which the first `window` places are used: the place of the next stay, how many are kept, and
// the stays; the count of i to j at i * 64 + j - 65, and the hours in i at i - 1. Arrays, since library code has no heap; the counts
// in one row, so that a pair of states has one place.
#[derive(Drop)]
pub struct Record {
    states: u64,
    window: usize,
    next: usize,
    kept: usize,
    places: [Kept; 256],
    counts: [u16; 4096],
    hours: [u32; 64],
}

// A caller sees the last stays accepted, and their tally.
impl Model for Record {
    ghost use Rattle.stays.specs.Latest.{Latest};

    ghost Value = { Latest };

    ghost use Rattle.stays.specs.Inner.{latest_in, Sound};

    ghost view = { latest_in };

    ghost invariant = { Sound };
}

// What a refused start is answered, beside the record that it has all the same: of one state, which takes no stay.
#[derive(Drop)]
pub struct Told {
    pub answer: Refusal,
    pub latest: Record,
}

impl Record {
    // Starts a record with M states and a window size.
    pub fn start(states: u64, window: u64) -> Result<Record, Told>
        ensures { StartClaim states window result }
    {
        match judge_start(states, window) {
            Ok(()) => Ok(Record::empty(states, window as usize)),
            Err(answer) => Err(Told {
                answer,
                latest: Record::empty(1, 1),
            }),
        }
    }

    // Offers a stay to the record. One that is refused alters nothing.
    pub fn stay(&mut self, from: u64, to: u64, hours: u64) -> Result<(), Refusal>
        ensures { StayClaim self.old (stay_of from to hours) result self.new }
    {
        judge_stay(self.states, from, to, hours)?;
        self.push(Kept {
            from: from as u8,
            to: to as u8,
            span: hours as u16,
        });
        Ok(())
    }

    // Reads the rate from one state to another, in millionths per hour.
    pub fn rate(&self, from: u64, to: u64) -> Result<u32, Refusal>
        ensures { RateClaim self.now from to result }
    {
        judge_pair(self.states, from, to)?;
        let i = from as usize;
        let j = to as usize;
        let count = self.counts[cell_of(i, j)];
        let hours = self.hours[i - 1];
        Ok(rate_of(count, hours))
    }

    // A record that no stay was offered to.
    fn empty(states: u64, window: usize) -> Record
        requires { (1 ≤ states) × (states ≤ 64) × (1 ≤ window) × (window ≤ 256) }
        ensures { result ≡ empty states window }
    {
        let none = Kept {
            from: 0,
            to: 0,
            span: 0,
        };
        Record {
            states,
            window,
            next: 0,
            kept: 0,
            places: [none; 256],
            counts: [0; 4096],
            hours: [0; 64],
        }
    }

    // An accepted stay: the oldest leaves only as it enters a full window.
    fn push(&mut self, stay: Kept)
        requires { Fine self.old.states (stay_in stay) }
        ensures { self.new ≡ pushed self.old (stay_in stay) }
    {
        self.make_room();
        self.enter(stay);
    }

    // The oldest stay leaves a full window.
    fn make_room(&mut self)
        ensures room { length self.new.stays < self.new.window }
        ensures latest { self.new ≡ pick (eqb (length self.old.stays) self.old.window) (left self.old) self.old }
    {
        if self.kept == self.window {
            self.leave();
        }
    }

    // The oldest stay of a full window leaves: it stands where the next one goes.
    fn leave(&mut self)
        requires { length self.old.stays ≡ self.old.window }
        ensures { self.new ≡ left self.old }
    {
        let oldest = self.places[self.next];
        let i = usize::from(oldest.from);
        let j = usize::from(oldest.to);
        self.kept -= 1;
        self.counts[cell_of(i, j)] -= 1;
        self.hours[i - 1] -= u32::from(oldest.span);
    }

    // A stay enters a window that has room.
    fn enter(&mut self, stay: Kept)
        requires { (length self.old.stays < self.old.window) × Fine self.old.states (stay_in stay) }
        ensures { self.new ≡ entered self.old (stay_in stay) }
    {
        let i = usize::from(stay.from);
        let j = usize::from(stay.to);
        self.places[self.next] = stay;
        self.next = following(self.window, self.next);
        self.kept += 1;
        self.counts[cell_of(i, j)] += 1;
        self.hours[i - 1] += u32::from(stay.span);
    }
}

// The place after a place of a ring.
fn following(window: usize, at: usize) -> usize
    requires { at < window }
    ensures { result ≡ following window at }
{
    if at + 1 == window { 0 } else { at + 1 }
}

// Where the count of i to j stands.
fn cell_of(i: usize, j: usize) -> usize
    requires { (1 ≤ i) × (i ≤ 64) × (1 ≤ j) × (j ≤ 64) }
    ensures { (result ≡ i * 64 + j - 65) × (result < 4096) }
{
    i * 64 + j - 65
}

// Whether a state is outside 1 to M, or both are the same.
fn no_pair(states: u64, i: u64, j: u64) -> bool
    ensures { result ≡ no_pair states i j }
{
    refusals::outside(1, states, i) || refusals::outside(1, states, j) || i == j
}

// Row 20.
fn judge_pair(states: u64, i: u64, j: u64) -> Result<(), Refusal>
    ensures { answer_of result ≡ judged_by (pair_rows states i j) }
{
    if no_pair(states, i, j) {
        return Err(Refusal::Pair);
    }
    Ok(())
}

// Row 20, then row 21.
fn judge_stay(states: u64, i: u64, j: u64, hours: u64) -> Result<(), Refusal>
    ensures { answer_of result ≡ judged_by (stay_rows states (stay_of i j hours)) }
{
    judge_pair(states, i, j)?;
    if refusals::outside(1, MOST_HOURS, hours) {
        return Err(Refusal::Hours);
    }
    Ok(())
}

// Row 4, then row 22.
pub fn judge_start(states: u64, window: u64) -> Result<(), Refusal>
    ensures { answer_of result ≡ judged_by (start_rows states window) }
{
    refusals::judge_states(states)?;
    if refusals::outside(1, MOST_WINDOW, window) {
        return Err(Refusal::Window);
    }
    Ok(())
}

// The count times 1,000,000 over the hours, down, or 0 where there are no hours.
fn rate_of(count: u16, hours: u32) -> u32
    requires { count ≤ hours }
    ensures { result ≡ rate_of count hours }
{
    if hours == 0 {
        return 0;
    }
    (u64::from(count) * 1_000_000 / u64::from(hours)) as u32
}
