// One trace after the other, each compared with the model in every way.
use crate::case::{Case, Settled};
use crate::files::{Written, broken, damage, file_agrees};
use crate::pairs::slower;
use crate::tally::Tally;
use arrayvec::CapacityError;
use job::locate;
use model::check_settled;
use random_traces::{Dice, Draft};

// A trace with more unknown flags has too many settlings.
const FEW: u32 = 6;

impl Tally {
    fn compared(&mut self, hit_cycles: u32) {
        self.with_hits.add_one_if(hit_cycles > 0);
    }

    // Every row and the finishing time of a trace without unknown flags.
    fn rows_turn(&mut self, run: &Settled) {
        self.note(run.finishes());
        self.rows(run);
        self.finishes.add_one();
    }

    // A margin for a deadline near the worst time, with its sign.
    fn margin_turn(&mut self, case: &Case, worst: u32, d: Dice) {
        let deadline = worst.saturating_sub(2).saturating_add(d.part(7, 5));
        self.note(case.keeps(deadline, worst));
        self.margins.add_one();
    }

    // The order and, where only latencies differ, the sum bound, with one h for both; likeness of the two.
    fn pair_turn(&mut self, first: &Settled, second: &Settled, flags: bool) {
        self.note(first.time <= second.time && first.is_ahead_of(second));
        self.pairs.add_one();
        if !flags {
            let bound = first.added_in(second).saturating_add(u64::from(first.time));
            self.note(u64::from(second.time) <= bound);
            self.sums.add_one();
        }
        self.note(first.is_alike(second));
        self.likes.add_one();
    }

    pub fn settled_turn(&mut self, draft: &Draft, hit_cycles: u32) {
        let flags = draft.dice.part(4, 2) == 0;
        let later = slower(draft, flags);
        let first = Case::of(draft, hit_cycles).settled();
        let second = Case::of(&later, hit_cycles).settled();
        let (Some(first), Some(second)) = (first, second) else {
            return self.note(false);
        };
        self.compared(hit_cycles);
        self.rows_turn(&first);
        self.rows_turn(&second);
        self.pair_turn(&first, &second, flags);
        self.margin_turn(&second.case, second.time, draft.dice);
    }

    // One trace with a latency of 65,535 somewhere, whose rows are many.
    pub fn long_turn(&mut self, case: &Case) {
        let Some(run) = case.settled() else {
            return self.note(false);
        };
        self.compared(case.hit_cycles);
        self.rows_turn(&run);
    }

    // Best and worst against all settlings, where there are at most 64.
    pub fn unknown_turn(&mut self, case: &Case, d: Dice) {
        let unknown = model::unknowns(case.body);
        if unknown > FEW {
            return;
        }
        let Some(times) = case.times() else {
            return self.note(false);
        };
        self.compared(case.hit_cycles);
        self.note(case.is_within(times));
        self.bounds.add_one();
        self.settlings.add(1 << unknown);
        self.margin_turn(case, times.worst, d);
    }

    // What each call answers to a trace that 17 declines, and Alike beside a slower one that it may accept.
    pub fn declined_turn(&mut self, draft: &Draft, hit_cycles: u32) {
        let later = slower(draft, true);
        let case = Case::of(draft, hit_cycles);
        self.note(case.is_refused_as_told(&Case::of(&later, hit_cycles)));
        self.declined.add_one();
    }

    fn open_turn(&mut self, file: &[u8], trace: u32) {
        self.seen.add(&locate(file, trace));
        self.note(file_agrees(file));
    }

    // A job file of the trace, whole and damaged, unless Write refuses to make one.
    pub fn file_turn(&mut self, draft: &Draft) {
        let Written { file, short, agree } = Written::of(draft.body(), draft.dice);
        self.seen.add(&file);
        self.seen.add(&short);
        self.note(agree);
        let Ok(mut file) = file else {
            return;
        };
        self.open_turn(file.as_slice(), 3);
        self.files.add_one();
        damage(&mut file, draft.dice.rolled());
        self.open_turn(file.as_slice(), 0);
        self.damaged.add_one();
    }

    // The refusals of a body that may be broken, by every call that takes one and by Write.
    pub fn refusal_turn(&mut self, draft: &Draft, hit_cycles: u32) -> Result<(), CapacityError> {
        let hurt = broken(draft, draft.dice.rolled().rolled())?;
        let case = Case {
            body: hurt.as_slice(),
            hit_cycles,
        };
        self.seen.add(&check_settled(case.body, hit_cycles));
        self.note(case.is_refused_as_told(&Case::of(draft, hit_cycles)));
        self.refusals.add_one();
        let written = Written::of(case.body, draft.dice);
        self.seen.add(&written.file);
        self.note(written.agree);
        Ok(())
    }
}
