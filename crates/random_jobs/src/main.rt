// Random job files, from a fixed seed: a whole job in one call by the engine against the second model's, and what
// became of the list that was lent.
#![tactic(auto)]

mod calls;
mod files;
mod lists;
mod print;
mod tally;

use arrayvec::CapacityError;
use calls::Job;
use files::File;
use job::table::MAX_TRACES;
use lists::{PLACES, former_values};
use print::print;
use random_traces::Dice;
use record::Refusal;
use std::io;
use tally::Tally;

const FILES: u32 = 8000;

// One byte more than a file may have.
const TOO_LONG: usize = 65537;

impl Tally {
    // A file is counted only where Write made it.
    fn file(&mut self, job: &Job) {
        let answer = job.by_engine(&mut [0; PLACES]);
        self.files.add_one_if(!job.file.is_empty());
        self.empty.add_one_if(job.traces == 0);
        self.full.add_one_if(job.traces == MAX_TRACES);
        self.declined.add_one_if(answer == Err(Refusal::LongHit));
        self.with_hits
            .add_one_if(answer.is_ok() && job.hit_cycles > 0);
    }

    // A file whole, then the same damaged; gives the dice after them.
    fn turn(&mut self, dice: Dice) -> Result<Dice, CapacityError> {
        let dice = dice.rolled();
        let mut file = File::made(dice.part(20, 17), dice, dice.hit_cycles())?;
        self.file(&file.job());
        self.calls_on_every_list(&file.job(), &former_values(file.dice));
        file.damage();
        self.calls_on_every_list(&file.job(), &former_values(file.dice));
        Ok(file.dice)
    }

    fn all_turns(&mut self) -> Result<(), CapacityError> {
        let mut dice = Dice::SEED;
        for _ in 0..FILES {
            dice = self.turn(dice)?;
        }
        Ok(())
    }

    // A file of one byte too many to open, with a list of three places. It is declined for that, before 17 is.
    fn long_file(&mut self) {
        let job = Job {
            file: &[0; TOO_LONG],
            traces: 0,
            hit_cycles: 16,
        };
        self.call(&job, 3, &former_values(Dice::SEED));
    }
}

fn main(rt: HostRuntime) -> io::Result<()> {
    let mut tally = Tally::default();
    let misfit = |_| io::Error::other("a file that does not fit its room");
    tally.all_turns().map_err(misfit)?;
    tally.long_file();
    print(&rt, &tally)?;
    Ok(())
}
