// One pass over the positions, a job at a time.
ghost use Rattle.std.specs.Prelude.{◌≡◌};
ghost use Rattle.seen.specs.Seen.{seen_with};

use crate::order;
use seen::Seen;
use state::Job;
use units::{Tick, sets};

// What was seen, with the job at one more position.
#[tactic(auto, unfolding(seen::specs::Seen::seen_with))]
pub fn seen_with(seen: Seen, now: Tick, job: Job, position: u8) -> Seen
    ensures { result ≡ seen_with now.0 job position seen }
{
    if !job.pending {
        return seen;
    }
    let at = order::place(now, job.deadline, position);
    let mut next = seen;
    next.held = job.held.join(seen.held);
    next.top = seen.top.min(at);
    if now.distance(job.deadline) == 1 {
        next.due = sets::with(seen.due, position as usize);
    }
    if job.started {
        next.started = seen.started.min(at);
    }
    if job.held.any() {
        next.last = seen.last.max(at);
    }
    next
}
