// Each step carried out on the table where it stands. A refused one changes nothing.
// Stays: that a table has at most 7 sites is asked of these private functions; a type for it would be no plainer, since `step` and `run` are lent any table
// and it would be made and opened around each call.
// Stays: so is that the free places are the table's: a struct of both would lend a table that its caller owns, and be opened at each step.
ghost use Rattle.std.specs.Prelude.{ℕ, ◌≤◌, ◌≡◌, Bool, List, ℤ};
ghost use Rattle.plans.specs.Free.{free_among};
ghost use Rattle.record.specs.Records.{step_from};
ghost use Rattle.steps.specs.Answers.{stepped_from};
ghost use Rattle.steps.specs.Numbers.{begin_number, tell_number, deliver_number, drop_number, put_number, retire_number, read_number};
ghost use Rattle.steps.specs.Steps.{unless_refused, begun, told, delivered, dropped, put_up, retired, readings, advanced};

use plans::answer::Results;
use plans::begin::{stamp_for, stored};
use plans::free::FreePlaces;
use plans::messages::{has_word, message_from};
use plans::places::{free_place, place_with};
use plans::retire::{forget_everywhere, is_held_back};
use plans::sites::{is_site, is_up};
use pool::drop_at;
use record::Brief;
use refusals::Refusal;
use table::data::Table;
use vote::requests::blank_request;
use vote::voting::vote_at;
use walk::hearing::{receive, take_up};

// Step 1, begin: the request is stored at the lowest free place, and its site considers it.
#[tactic(auto, unfolding(crate::specs::Numbers::begin_number, crate::specs::Numbers::free_place, crate::specs::Steps::begun, crate::specs::Steps::entered, plans::specs::Pieces::found, plans::specs::Pieces::free_in, plans::specs::Pieces::given_for))]
fn begin(
    t: &mut Table,
    a: Brief,
    stamps: &[u64; 24],
    values: &[i32; 24],
) -> Result<Results, Refusal>
    requires { t.old.count ≤ 7 }
    ensures messages { t.new.messages ≡ t.old.messages }
    ensures answer { stepped_from result t.new ≡ unless_refused (begin_number t.old (step_from a stamps.now values.now)) (begun t.old (step_from a stamps.now values.now)) t.old }
{
    if !is_site(t.count, a.site) {
        return Err(Refusal::NoSuchSite);
    }
    let k = usize::from(a.site) - 1;
    if !t.sites[k].up {
        return Err(Refusal::SiteDown);
    }
    let given = stamp_for(t.count, t.sites[k].last, a, stamps, values)?;
    let Some(p) = free_place(&t.requests) else {
        return Err(Refusal::RequestsFull);
    };
    t.sites[k].last = given.t;
    t.requests[p] = stored(a, stamps, values, given.stamp);
    let ruled = take_up(&t.requests, &mut t.sites[k], t.count, k as u8, p as u8);
    Ok(Results {
        first: given.stamp as i64,
        second: p as u64,
        accepted: ruled.accepted,
        rejected: ruled.rejected,
    })
}

// Step 2, tell: the message is put in the lowest free place.
#[tactic(auto, unfolding(crate::specs::Numbers::tell_number, crate::specs::Numbers::cannot_tell, crate::specs::Numbers::place_of, crate::specs::Numbers::free_message, crate::specs::Steps::told, plans::specs::Pieces::found, plans::specs::Pieces::place_in, walk::specs::Walking::accepts, walk::specs::Walking::rejects))]
fn tell(t: &mut Table, free: &mut FreePlaces, a: Brief) -> Result<Results, Refusal>
    requires few { t.old.count ≤ 7 }
    requires free { free.old ≡ free_among t.old.messages }
    ensures free { free.new ≡ free_among t.new.messages }
    ensures answer { (ss : List ℕ) (vs : List ℤ) → stepped_from result t.new ≡ unless_refused (tell_number t.old (step_from a ss vs)) (told t.old (step_from a ss vs)) t.old }
{
    if !is_site(t.count, a.site) || !is_site(t.count, a.to) {
        return Err(Refusal::NoSuchSite);
    }
    let teller = &t.sites[usize::from(a.site) - 1];
    if !teller.up {
        return Err(Refusal::SiteDown);
    }
    let Some(p) = place_with(&t.requests, a.stamp) else {
        return Err(Refusal::NoSuchRequest);
    };
    if !has_word(vote_at(&teller.votes, p as u8)) || a.site == a.to {
        return Err(Refusal::NothingToTell);
    }
    let Some(j) = free.lowest() else {
        return Err(Refusal::MessagesFull);
    };
    free.take(j);
    t.messages[j] = message_from(teller, p as u8, a.site - 1, a.to - 1);
    Ok(Results::quiet(j as i64, 0))
}

// Step 3, deliver: the message comes to its receiver, and stays where it is.
#[tactic(auto, unfolding(crate::specs::Numbers::deliver_number, crate::specs::Numbers::no_message_at, crate::specs::Steps::delivered))]
fn deliver(t: &mut Table, a: Brief) -> Result<Results, Refusal>
    ensures messages { t.new.messages ≡ t.old.messages }
    ensures answer { (ss : List ℕ) (vs : List ℤ) → stepped_from result t.new ≡ unless_refused (deliver_number t.old (step_from a ss vs)) (delivered t.old (step_from a ss vs)) t.old }
{
    let j = usize::from(a.place);
    if 63 < j || !t.messages[j].used {
        return Err(Refusal::NoSuchMessage);
    }
    let m = t.messages[j];
    if !is_up(&t.sites, m.to) {
        return Err(Refusal::SiteDown);
    }
    let ruled = receive(
        &t.requests,
        &mut t.sites[usize::from(m.to)],
        t.count,
        m.to,
        m.request,
        m.verdict,
        &m.oks,
        &m.others,
    );
    Ok(Results {
        first: 0,
        second: 0,
        accepted: ruled.accepted,
        rejected: ruled.rejected,
    })
}

// Step 4, drop: the message is lost, and its place is free.
#[tactic(auto, unfolding(crate::specs::Numbers::drop_number, crate::specs::Numbers::no_message_at, crate::specs::Steps::dropped, walk::specs::Walking::accepts, walk::specs::Walking::rejects))]
fn lose(t: &mut Table, free: &mut FreePlaces, a: Brief) -> Result<Results, Refusal>
    requires free { free.old ≡ free_among t.old.messages }
    ensures free { free.new ≡ free_among t.new.messages }
    ensures answer { (ss : List ℕ) (vs : List ℤ) → stepped_from result t.new ≡ unless_refused (drop_number t.old (step_from a ss vs)) (dropped t.old (step_from a ss vs)) t.old }
{
    let j = usize::from(a.place);
    if 63 < j || !t.messages[j].used {
        return Err(Refusal::NoSuchMessage);
    }
    drop_at(&mut t.messages, j);
    free.give(j);
    Ok(Results::quiet(0, 0))
}

// Steps 5 and 6, down and up: a site that is so already is refused.
#[tactic(auto, unfolding(crate::specs::Numbers::down_number, crate::specs::Numbers::up_number, crate::specs::Steps::put_up, walk::specs::Walking::accepts, walk::specs::Walking::rejects))]
fn put(t: &mut Table, a: Brief, up: bool) -> Result<Results, Refusal>
    requires { t.old.count ≤ 7 }
    ensures messages { t.new.messages ≡ t.old.messages }
    ensures answer { (ss : List ℕ) (vs : List ℤ) → stepped_from result t.new ≡ unless_refused (put_number up t.old (step_from a ss vs)) (put_up up t.old (step_from a ss vs)) t.old }
{
    if !is_site(t.count, a.site) {
        return Err(Refusal::NoSuchSite);
    }
    let k = usize::from(a.site) - 1;
    if t.sites[k].up == up {
        return Err(if up {
            Refusal::AlreadyUp
        } else {
            Refusal::SiteDown
        });
    }
    t.sites[k].up = up;
    Ok(Results::quiet(0, 0))
}

// Step 7, retire: the request's place is freed, and all sites forget it.
#[tactic(auto, unfolding(crate::specs::Numbers::retire_number, crate::specs::Numbers::place_of, crate::specs::Numbers::cannot_retire, crate::specs::Steps::retired, plans::specs::Pieces::found, plans::specs::Pieces::place_in, walk::specs::Walking::accepts, walk::specs::Walking::rejects))]
fn retire(t: &mut Table, a: Brief) -> Result<Results, Refusal>
    ensures messages { t.new.messages ≡ t.old.messages }
    ensures answer { (ss : List ℕ) (vs : List ℤ) → stepped_from result t.new ≡ unless_refused (retire_number t.old (step_from a ss vs)) (retired t.old (step_from a ss vs)) t.old }
{
    let Some(p) = place_with(&t.requests, a.stamp) else {
        return Err(Refusal::NoSuchRequest);
    };
    if is_held_back(t.count, &t.sites, &t.messages, p as u8) {
        return Err(Refusal::HeldBack);
    }
    t.requests[p] = blank_request();
    forget_everywhere(&mut t.sites, p as u8);
    Ok(Results::quiet(0, 0))
}

// Step 8, read.
#[tactic(auto, unfolding(crate::specs::Numbers::read_number, crate::specs::Steps::readings, walk::specs::Walking::accepts, walk::specs::Walking::rejects))]
fn read(t: &Table, a: Brief) -> Result<Results, Refusal>
    requires { t.now.count ≤ 7 }
    ensures { (ss : List ℕ) (vs : List ℤ) → stepped_from result t.now ≡ unless_refused (read_number t.now (step_from a ss vs)) (readings t.now (step_from a ss vs)) t.now }
{
    if !is_site(t.count, a.site) {
        return Err(Refusal::NoSuchSite);
    }
    let s = &t.sites[usize::from(a.site) - 1];
    if !s.up {
        return Err(Refusal::SiteDown);
    }
    let i = usize::from(a.item);
    if 23 < i {
        return Err(Refusal::NoSuchItem);
    }
    Ok(Results::quiet(i64::from(s.values[i]), s.stamps[i]))
}

// The step of the record a, whose stamps and values these are where it is a begin, on a table of at most 7 sites. Its free message places are
// kept beside it.
#[tactic(auto, unfolding(crate::specs::Steps::advanced))]
pub(crate) fn take_step(
    t: &mut Table,
    free: &mut FreePlaces,
    a: Brief,
    stamps: &[u64; 24],
    values: &[i32; 24],
) -> Result<Results, Refusal>
    requires few { t.old.count ≤ 7 }
    requires free { free.old ≡ free_among t.old.messages }
    ensures free { free.new ≡ free_among t.new.messages }
    ensures answer { stepped_from result t.new ≡ advanced t.old (step_from a stamps.now values.now) }
{
    // Stays: a match over the code: document 01 names the form, "Step code matched over eight values and ranges".
    match a.code {
        1 => begin(t, a, stamps, values),
        2 => tell(t, free, a),
        3 => deliver(t, a),
        4 => lose(t, free, a),
        5 => put(t, a, false),
        6 => put(t, a, true),
        7 => retire(t, a),
        8 => read(t, a),
        0 | 9..=255 => Err(Refusal::NoSuchStep),
    }
}
