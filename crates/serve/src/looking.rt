// The commands that look: the look-ahead, `get`, `find`, steps along the chain by the cursor, and `check`.
use crate::Served;
use answers::answer::Answer;
use handle::{Ahead, Key, Refusal, Side};
use queue::cursor::Cursor;
use queue::looking::Searched;
use queue::{looking, placing};
use script::command::Place;

impl Served {
    // What an insertion would answer, without the number of a new entry and without the old value.
    pub fn look_ahead(&self, place: Place, key: Key) -> Result<Answer, Refusal> {
        match self.ahead_at(place, key)? {
            Ahead::New(_) => Ok(Answer::WouldBeNew),
            Ahead::Replacing(h) => Ok(Answer::WouldReplace(self.number_of(h))),
        }
    }

    fn ahead_at(&self, place: Place, key: Key) -> Result<Ahead, Refusal> {
        match place {
            Place::Normal => placing::look_ahead(&self.store, key),
            Place::Empty => placing::look_ahead_empty(&self.store),
            Place::Manual(n, side) => {
                placing::look_ahead_manual(&self.store, self.handle_of(n), side, key)
            }
        }
    }

    pub fn get(&self, n: u64) -> Result<Answer, Refusal> {
        let entry = looking::read(&self.store, self.handle_of(n))?;
        Ok(Answer::Got(entry))
    }

    pub fn find(&self, key: Key) -> Result<Answer, Refusal> {
        match looking::search(&self.store, key)? {
            Searched::Equal(h, count) => Ok(Answer::Found(Side::Equal, self.number_of(h), count)),
            Searched::Beside(h, side, count) => Ok(Answer::Found(side, self.number_of(h), count)),
            Searched::Empty(_) => Ok(Answer::Empty),
        }
    }

    // Where a cursor has come to.
    fn moved(&self, to: Option<Cursor>) -> Answer {
        match to {
            Some(cursor) => Answer::At(self.number_of(cursor.handle)),
            None => Answer::End,
        }
    }

    // The cursor stands at the entry that the insertion n gave, before it steps.
    fn stand(&self, n: u64) -> Result<Option<Cursor>, Refusal> {
        Cursor::at(&self.store, self.handle_of(n))
    }

    pub fn first(&self) -> Result<Answer, Refusal> {
        Ok(self.moved(Cursor::first(&self.store)?))
    }

    pub fn last(&self) -> Result<Answer, Refusal> {
        Ok(self.moved(Cursor::last(&self.store)?))
    }

    pub fn next(&self, n: u64) -> Result<Answer, Refusal> {
        let Some(cursor) = self.stand(n)? else {
            return Ok(Answer::End);
        };
        Ok(self.moved(cursor.forward(&self.store)?))
    }

    pub fn prev(&self, n: u64) -> Result<Answer, Refusal> {
        let Some(cursor) = self.stand(n)? else {
            return Ok(Answer::End);
        };
        Ok(self.moved(cursor.back(&self.store)?))
    }

    // Whether the store is sound, whatever it holds.
    pub fn check(&self) -> Answer {
        if looking::check(&self.store) {
            Answer::Sound
        } else {
            Answer::Unsound
        }
    }
}
