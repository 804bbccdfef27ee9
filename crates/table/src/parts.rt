// Soundness part by part: one request, one site's copy and queue, what one site holds of one place, one message.
ghost use Rattle.std.specs.Prelude.{◌≡◌, not, ◌&&◌, ◌<◌, ◌≤◌, eqb, leb, ltb, length, get_or, pos};
ghost use Rattle.kit.specs.Lists.{listed};
ghost use Rattle.kit.specs.Range.{all, implies, one, number};
ghost use Rattle.majority.specs.Majority.{majority, blocking};
ghost use Rattle.stamps.specs.Stamps.{well_formed};
ghost use Rattle.table.specs.Gathered.{marks_by};
ghost use Rattle.table.specs.Parts.{row_sets, rows_at, stamp_new, content_right, time_right, value_right, queue_holds, backed_by, request_sound, place_counted, rest_counted, standing_counted, site_sound, message_sound};
ghost use Rattle.vote.specs.Data.{is_deferred, vote_at};
ghost use Rattle.vote.specs.Queue.{queued_at};
ghost use Rattle.vote.specs.Voters.{are_among, voters_of};

use crate::blank::{is_blank_message, is_blank_request, is_blank_site, is_blank_vote};
use crate::data::Message;
use crate::marks::{Marked, is_in_time, set_of};
use crate::requests::is_request_allowed;
use vote::consider::{is_deferred, is_ok, is_open, is_other, is_unmarked};
use vote::data::{Request, Site, Verdict, Vote};
use vote::voters::{are_known_among, count_known, is_known};

// What is gathered of a table before its parts are asked: its site count, each site's last t, each request place's stamp, and the own marks.
#[derive(Drop)]
pub(crate) struct Gathered {
    pub n: u8,
    pub lasts: [u32; 7],
    pub stamps: [u64; 16],
    pub marked: Marked,
}

// Whether no place before p has the stamp of place p.
// Stays: p < 16 is asked here and below; the callers come by p as a `usize`, a `u8` and a message's field, and a type for it would be turned back at each index.
fn is_stamp_new(stamps: &[u64; 16], p: usize) -> bool
    requires { p < 16 }
    ensures { result ≡ stamp_new stamps.now p }
{
    !stamps[..p].contains(&stamps[p])
}

// Whether a stamp of a copy is well formed and in time.
fn is_stamp_right(n: u8, lasts: &[u32; 7], stamp: u64) -> bool
    ensures { result ≡ (well_formed n stamp && time_right lasts.now stamp) }
{
    stamps::is_well_formed(n, stamp) && is_in_time(lasts, stamp)
}

// Whether each stamp of a copy is right. Often it is the one before it, which has passed.
// Stays: a loop with a memory; `.all(..)` would need a closure that changes `last` from turn to turn, which is no plainer.
fn are_copied_in_time(n: u8, lasts: &[u32; 7], copied: &[u64; 24]) -> bool
    ensures { result ≡ all 24 (λ i. well_formed n (get_or copied.now i 0) && time_right lasts.now (get_or copied.now i 0)) }
{
    let mut last = 0;
    for stamp in copied {
        if *stamp != last && !is_stamp_right(n, lasts, *stamp) {
            return false;
        }
        last = *stamp;
    }
    true
}

// Whether a value is in range, and 0 at stamp 0.
#[tactic(auto, using(crate::proofs::Runs::value_none, crate::proofs::Runs::value_some))]
fn is_value_right(stamp: u64, value: i32) -> bool
    ensures { result ≡ value_right stamp value }
{
    if stamp == 0 {
        return value == 0;
    }
    readings::is_in_range(value)
}

// Whether each value of a copy is right beside its stamp.
// No turn leaves the loop, so that the tests can be made side by side.
fn are_copied_right(copied: &[u64; 24], values: &[i32; 24]) -> bool
    ensures { result ≡ all 24 (λ i. value_right (get_or copied.now i 0) (get_or values.now i (pos 0))) }
{
    let mut right = true;
    for (stamp, value) in copied.iter().zip(values) {
        right &= is_value_right(*stamp, *value);
    }
    right
}

// Whether the queue's places behind its end are 0.
// Stays: a loop; `.iter().all(..)` was tried and its goal stayed open.
fn is_queue_end_blank(waiting: u8, queue: &[u8; 16]) -> bool
    ensures { result ≡ all 16 (λ i. implies (leb waiting i) (eqb (queued_at queue.now i) 0)) }
{
    for (i, place) in queue.iter().enumerate() {
        if usize::from(waiting) <= i && *place != 0 {
            return false;
        }
    }
    true
}

// How often each place stands among these of a queue.
// Stays: a loop; the closure of a fold would take and give back the 16 counts at each turn, which is no plainer.
fn times_queued(queue: &[u8]) -> [u8; 16]
    requires { length queue.now ≤ 16 }
    ensures { result ≡ listed 16 (λ p. number (length queue.now) (λ i. eqb (queued_at queue.now i) p)) }
{
    let mut times = [0; 16];
    for place in queue {
        if *place < 16 {
            times[usize::from(*place)] += 1;
        }
    }
    times
}

// Whether each place stands in the queue once if it is deferred, and else not.
fn are_queued_right(times: &[u8; 16], votes: &[Vote; 16]) -> bool
    ensures { result ≡ all 16 (λ p. eqb (get_or times.now p 0) (one (is_deferred (vote_at votes.now p).mark))) }
{
    times
        .iter()
        .zip(votes)
        .all(|(times, v)| *times == u8::from(is_deferred(v.mark)))
}

// Whether each of these of a queue names a request place.
fn are_places(queue: &[u8]) -> bool
    ensures { result ≡ all (length queue.now) (λ i. ltb (queued_at queue.now i) 16) }
{
    queue.iter().all(|place| *place < 16)
}

// Whether the queue holds exactly the deferred requests, once each.
fn is_queue_exact(waiting: u8, queue: &[u8; 16], votes: &[Vote; 16]) -> bool
    ensures { result ≡ queue_holds waiting queue.now votes.now }
{
    let w = usize::from(waiting);
    if 16 < w {
        return false;
    }
    are_places(&queue[..w]) && are_queued_right(&times_queued(&queue[..w]), votes)
}

// Whether a verdict on place p is backed by that many own marks.
#[tactic(auto, unfolding(crate::specs::Parts::backed_by), using(crate::proofs::Marked::accepted, crate::proofs::Marked::rejected))]
fn is_backed(n: u8, p: u8, marked: &Marked, v: Verdict) -> bool
    ensures { result ≡ backed_by n (rows_at marked.now.oks marked.now.others p) v }
{
    match v {
        Verdict::Open => true,
        Verdict::Accepted => majority::to_accept(n) <= count_known(&marked.oks, p),
        Verdict::Rejected => majority::to_reject(n) <= count_known(&marked.others, p),
    }
}

// Whether the voters that a message carries are known of place p; `sets` has the known voters of each place as a set.
#[tactic(auto, using(crate::proofs::RowSets::carried))]
fn are_sent_among(sent: &[bool; 7], known: &[bool; 112], sets: &[u32; 16], p: usize) -> bool
    requires place { p < 16 }
    requires sets { sets.now ≡ row_sets known.now }
    ensures { result ≡ are_among sent.now (voters_of known.now p) }
{
    sets::is_inside(set_of(sent), sets[p])
}

// Whether a and b are two different sites of n.
fn are_two_sites(n: u8, a: u8, b: u8) -> bool
    ensures { result ≡ (ltb a n && (ltb b n && not (eqb a b))) }
{
    a < n && b < n && a != b
}

// Whether a site that holds a request open knows too few voters, and none where it has no mark.
fn is_open_right(n: u8, unmarked: bool, oks: u8, others: u8) -> bool
    ensures { result ≡ (not (leb (majority n) oks) && (not (leb (blocking n) others) && implies unmarked (eqb oks 0 && eqb others 0))) }
{
    oks < majority::to_accept(n)
        && others < majority::to_reject(n)
        && (!unmarked || oks == 0 && others == 0)
}

// Whether what a site holds of a request stands beside its counts of known voters: an open verdict beside few, and another beside a mark that
// is not deferred; nothing where the place is free.
// Stays: what is said and known of one place, one by one: `Gathered` has the whole table, and a struct of these alone would be no plainer.
fn is_standing_right(n: u8, v: Vote, oks: u8, others: u8, free: bool) -> bool
    ensures { result ≡ standing_counted n v oks others free }
{
    let standing = if is_open(v.verdict) {
        is_open_right(n, is_unmarked(v.mark), oks, others)
    } else {
        !is_deferred(v.mark)
    };
    standing && (!free || is_blank_vote(v) && oks == 0 && others == 0)
}

impl Gathered {
    // Whether request place p is free.
    fn is_free(&self, p: usize) -> bool
        requires { p < 16 }
        ensures { result ≡ eqb (get_or self.now.stamps p 0) 0 }
    {
        self.stamps[p] == 0
    }

    // Whether the request at place p is sound: one at a free place is blank.
    #[tactic(auto, unfolding(crate::specs::Parts::used_sound))]
    pub(crate) fn is_request_sound(&self, p: usize, q: &Request) -> bool
        requires { p < 16 }
        ensures { result ≡ request_sound self.now.n self.now.lasts self.now.stamps q.now p }
    {
        if q.stamp == 0 {
            return is_blank_request(q);
        }
        is_request_allowed(self.n, q)
            && stamps::is_issued_form(self.n, q.stamp)
            && is_in_time(&self.lasts, q.stamp)
            && is_stamp_new(&self.stamps, p)
    }

    // Whether what site `me` holds of place p agrees with the own marks of all sites, and is nothing where the place is free. That the voters
    // it knows have these marks is asked before, of all places at once.
    #[tactic(auto, unfolding(crate::specs::Parts::place_counted))]
    fn is_place_held(&self, me: usize, s: &Site, p: u8) -> bool
        requires { p < 16 }
        ensures { result ≡ place_counted self.now.n me self.now.marked.oks self.now.marked.others self.now.stamps s.now p }
    {
        let v = s.votes[usize::from(p)];
        let free = self.is_free(usize::from(p));
        (!is_ok(v.mark) || is_known(&s.oks, p, me))
            && (!is_other(v.mark) || is_known(&s.others, p, me))
            && is_backed(self.n, p, &self.marked, v.verdict)
            && is_standing_right(
                self.n,
                v,
                count_known(&s.oks, p),
                count_known(&s.others, p),
                free,
            )
    }

    // Whether what site `me` holds of each place is right.
    fn are_places_held(&self, me: usize, s: &Site) -> bool
        ensures { result ≡ all 16 (place_counted self.now.n me self.now.marked.oks self.now.marked.others self.now.stamps s.now) }
    {
        (0..16).all(|p| self.is_place_held(me, s, p))
    }

    // Whether what is asked of each site holds of site number `me`.
    fn is_in_order(&self, me: usize, s: &Site) -> bool
        ensures { result ≡ rest_counted self.now.n self.now.lasts self.now.marked.oks self.now.marked.others self.now.stamps me s.now }
    {
        are_copied_in_time(self.n, &self.lasts, &s.stamps)
            && are_copied_right(&s.stamps, &s.values)
            && is_queue_end_blank(s.waiting, &s.queue)
            && is_queue_exact(s.waiting, &s.queue, &s.votes)
            && are_known_among(&s.oks, &self.marked.oks)
            && are_known_among(&s.others, &self.marked.others)
            && self.are_places_held(me, s)
    }

    // Whether site number `me` of the table is sound: one that is not of the table is blank.
    pub(crate) fn is_site_sound(&self, me: usize, s: &Site) -> bool
        ensures { result ≡ site_sound self.now.n self.now.lasts (marks_by self.now) self.now.stamps me s.now }
    {
        if usize::from(self.n) <= me {
            return is_blank_site(s);
        }
        self.is_in_order(me, s)
    }

    // Whether what a message carries of place p agrees with the own marks of all sites.
    fn is_content_right(&self, m: &Message, p: usize) -> bool
        requires place { p ≡ m.now.request }
        requires inside { p < 16 }
        ensures { result ≡ content_right self.now.n (rows_at self.now.marked.oks self.now.marked.others p) m.now }
    {
        are_sent_among(&m.oks, &self.marked.oks, &self.marked.ok_sets, p)
            && are_sent_among(&m.others, &self.marked.others, &self.marked.other_sets, p)
            && is_backed(self.n, m.request, &self.marked, m.verdict)
    }

    // Whether a message is sound.
    pub(crate) fn is_message_sound(&self, m: &Message) -> bool
        ensures { result ≡ message_sound self.now.n (marks_by self.now) self.now.stamps m.now }
    {
        if !m.used {
            return is_blank_message(m);
        }
        let p = usize::from(m.request);
        if 15 < p || self.is_free(p) {
            return false;
        }
        are_two_sites(self.n, m.from, m.to) && self.is_content_right(m, p)
    }
}
