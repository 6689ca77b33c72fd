// The commands that change the queue: `new`, the three insertions, `rem`.
use crate::Served;
use answers::answer::Answer;
use handle::{Entry, Inserted, Refusal, Removed};
use queue::{placing, taking};
use script::command::Place;
use script::table::NUMBERS;

impl Served {
    // A refused `new` leaves the earlier queue and its numbers as they were.
    pub fn lay_out(&mut self, capacity: u64, top: u64) -> Result<Answer, Refusal> {
        placing::lay_out(&mut self.store, capacity, top)?;
        self.table.clear();
        Ok(Answer::Done)
    }

    // An insertion, unless every number has been given: then it is not tried.
    pub fn insert(&mut self, place: Place, entry: Entry) -> Result<Answer, Refusal> {
        if NUMBERS <= self.table.count() {
            return Ok(Answer::Full);
        }
        match self.insert_at(place, entry)? {
            Inserted::New(h) => Ok(Answer::New(self.table.give(h))),
            Inserted::Replacing(h, old) => Ok(Answer::Replaced(self.number_of(h), old)),
        }
    }

    fn insert_at(&mut self, place: Place, entry: Entry) -> Result<Inserted, Refusal> {
        let Entry { key, value } = entry;
        match place {
            Place::Normal => placing::insert(&mut self.store, key, value),
            Place::Empty => placing::insert_empty(&mut self.store, key, value),
            Place::Manual(n, side) => {
                let h = self.handle_of(n);
                placing::insert_manual(&mut self.store, h, side, key, value)
            }
        }
    }

    pub fn remove(&mut self, n: u64) -> Result<Answer, Refusal> {
        let h = self.handle_of(n);
        match taking::remove(&mut self.store, h)? {
            Removed::Entry(e) => Ok(Answer::Removed(n, e)),
            Removed::GenerationOverflow(e) => Ok(Answer::RemovedForGood(n, e)),
        }
    }
}
