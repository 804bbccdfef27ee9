// A site's queue of deferred requests.
ghost use Rattle.std.specs.Prelude.{◌≡◌};
ghost use Rattle.kit.specs.Lists.{without};
ghost use Rattle.vote.specs.Queue.{queued_at, joins_queue, leaves_queue, place_in_queue};

use crate::data::Site;

// The request place at place i of the queue; 0 behind its end.
pub fn queued_at(queue: &[u8], i: usize) -> u8
    ensures { result ≡ queued_at queue.now i }
{
    queue.get(i).copied().unwrap_or(0)
}

// Puts request place p at the end of the queue. A full queue takes no more.
#[tactic(auto, unfolding(crate::specs::Queue::joins_queue, crate::specs::Queue::queue_joined, crate::specs::Queue::count_joined))]
pub fn join_queue(s: &mut Site, p: u8)
    ensures { s.new ≡ joins_queue s.old p }
{
    let end = usize::from(s.waiting);
    if end < 16 {
        s.queue[end] = p;
        s.waiting += 1;
    }
}

// Takes place i out of a queue: those behind it move up, and the last place is 0.
pub fn move_up(queue: &mut [u8], i: usize)
    ensures { queue.new ≡ without 0 queue.old i }
{
    let end = queue.len();
    if i < end {
        queue.copy_within(i + 1.., i);
        queue[end - 1] = 0;
    }
}

// The request at place i of the queue leaves it.
#[tactic(auto, unfolding(crate::specs::Queue::leaves_queue))]
pub fn leave_queue(s: &mut Site, i: usize)
    ensures { s.new ≡ leaves_queue s.old i }
{
    if s.waiting != 0 {
        move_up(&mut s.queue, i);
        s.waiting -= 1;
    }
}

// Where request place p stands among the first w of the queue, and w where it does not.
pub fn place_in_queue(queue: &[u8], w: u8, p: u8) -> usize
    ensures { result ≡ place_in_queue queue.now w p }
{
    let end = usize::from(w);
    // Stays: the length w is any number that is handed in, and above the row's length the places read 0, so that no slice is walked.
    for i in 0..end {
        if queued_at(queue, i) == p {
            return i;
        }
    }
    end
}
