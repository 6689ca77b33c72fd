// The bell: what the sexton cancels, what can't be placed, and what the clock strikes.
use crate::{Store, hour};
use handle::Handle;
use output::{say, say_line};
use queue::cursor::Cursor;
use tower::clock::OnDrum;
use tower::planning::{Way, lay, plan, plan_so};
use tower::{checking, striking};

pub fn cancel(s: &mut Store, h: Handle) {
    say_line!(
        "The sexton goes to the bell, and the strike at half past six is cancelled by its handle."
    );
    say!("  cancel: ");
    striking::take(s, h);
    say!("  cancel once more: ");
    striking::take(s, h);
    say!("  read what it names: ");
    striking::read(s, h);
    say!("  step on from it: ");
    let gone = Cursor { handle: h };
    let m = gone.forward(s);
    striking::reached(s, m);
}

pub fn misplace(s: &mut Store, quarter: Handle) {
    say_line!(
        "It is planned again where it can't stand; the given strike is that of the first quarter."
    );
    plan_so(s, Way::Alone, OnDrum::quarter(hour::HALF), 2);
    plan_so(s, Way::Before(quarter), OnDrum::quarter(hour::HALF), 2);
}

pub fn lose_link(s: &mut Store, quarter: Handle) {
    say_line!("In a copy of the store, the first quarter loses its link to the next strike.");
    say!("  the check before: ");
    checking::check(s);
    checking::lose_link(s, quarter);
    say!("  the check after: ");
    checking::check(s);
}

pub fn strike(s: &mut Store) {
    say_line!("The cursor steps through the evening.");
    striking::step_through(s);
    say_line!("The clock strikes.");
    striking::strike_all(s);
    striking::tell_first(s);
    say!("  the check: ");
    checking::check(s);
}

pub fn retire(s: &mut Store) {
    say_line!("A slot comes to its last generation.");
    lay(s, 1, 1);
    plan(s, OnDrum::hour(hour::SIX), 6);
    striking::strike_all(s);
    plan(s, OnDrum::quarter(hour::HALF), 2);
    say!("  the check: ");
    checking::check(s);
}
