// A kernel with what its threads share, and the bodies of these threads.
ghost use Rattle.std.specs.Prelude.{IfSome};
ghost use Rattle.sem_msg.specs.Fabric.{IsOwnAct};

use crate::cell::{Caller, KernelCell, Progress};
use crate::desk::Desk;
use crate::gate::Gate;
use crate::shared::Run;
use sem_key::{KERNELS, OutOfMemory};
use sem_msg::{Act, with_bit, without};
use sem_turn::RunName;
use std::sync::atomic::Ordering;
use std::sync::{Mutex, Wait};

/// A kernel, with what its threads share.
#[derive(Drop)]
pub struct Node<N: RunName> {
    pub id: u32,
    pub cell: Mutex<KernelCell<N>>,
    // Its VPEs.
    pub callers: Vec<Caller<N>>,
}

/// What to tell others of an act, once the kernel is let go.
#[derive(Clone, Copy, Debug)]
enum News {
    Nothing,
    // A message was put into the link to that kernel.
    Mail { to: u32 },
    // The link from that kernel was full, and no longer is.
    Room { from: u32 },
    // A call was answered. The journal has that many replies then.
    Replies { count: u64 },
}

// What to tell others of an act that a kernel did alone.
fn news_of(progress: Progress) -> News {
    match progress {
        Progress::Replied(count) => News::Replies { count },
        _ => News::Nothing,
    }
}

// The act that makes the VPE's next call, or lets its waiting call go on.
fn call_act(vpe: u16, open: bool) -> Act
    ensures { IsOwnAct result }
{
    if open {
        Act::Resume { vpe }
    } else {
        Act::Call { vpe }
    }
}

// The first kernel with a bit in the mask, from that one on and then from 0.
fn first_from(mask: u32, first: u32) -> Option<u32> {
    if mask == 0 {
        return None;
    }
    let after = mask.rotate_right(first).trailing_zeros();
    Some(first.wrapping_add(after) % KERNELS)
}

// A flush or a fetch that the kernel and its desk allow as far as they can tell; none if there is
// none. The links are looked at from that kernel on.
fn link_act<N: RunName>(cell: &KernelCell<N>, desk: &Desk, first: u32) -> Option<Act> {
    let flushes = without(cell.filled(), desk.full());
    let fetches = if cell.is_handling() { 0 } else { desk.mail() };
    let peer = first_from(flushes | fetches, first)?;
    if without(with_bit(0, peer, true), flushes) == 0 {
        Some(Act::Flush { to: peer })
    } else {
        Some(Act::Fetch { from: peer })
    }
}

// The same for a kill.
fn kill_act<N: RunName>(cell: &KernelCell<N>, desk: &Desk) -> Option<Act> {
    for kill in &desk.kills {
        let act = Act::Kill { vpe: kill.vpe };
        if kill.is_due() && cell.can(act) {
            return Some(act);
        }
    }
    None
}

// The same for all three.
fn turn_act<N: RunName>(cell: &KernelCell<N>, desk: &Desk, first: u32) -> Option<Act> {
    let kill = kill_act(cell, desk);
    if kill.is_some() {
        return kill;
    }
    link_act(cell, desk, first)
}

// The other kernel of the act, or that one if it has none.
fn peer_of(act: Act, other: u32) -> u32 {
    match act {
        Act::Fetch { from } => from,
        Act::Flush { to } => to,
        _ => other,
    }
}

// Tells the news to the dispatchers that wait for them.
fn tell<N: RunName>(run: &Run<N>, id: u32, news: News) {
    match news {
        News::Nothing => {}
        News::Mail { to } => {
            if let Some(desk) = run.desk(to) {
                desk.bring_mail(id);
            }
        }
        News::Room { from } => {
            if let Some(desk) = run.desk(from) {
                desk.bring_room(id);
            }
        }
        News::Replies { count } => run.bring_replies(count),
    }
}

impl<N: RunName> Node<N> {
    /// Rings for all waiting calls.
    pub fn wake(&self) {
        for caller in &self.callers {
            caller.bell.ring();
        }
    }

    /// The dispatcher: does everything but the calls, until nothing is left or the run is stopped.
    pub fn dispatch<R: Wait, G: Gate>(&self, rt: &R, run: &Run<N>, gate: &G) {
        if let Some(desk) = run.desk(self.id) {
            let mut peer = 0;
            for _ in rt.forever() {
                if run.is_over() {
                    break;
                }
                match self.advance(rt, run, gate, desk, peer) {
                    Ok(Some(next)) => peer = next,
                    Ok(None) => {
                        desk.bell.sleep(rt);
                        desk.bell.hear();
                    }
                    Err(_) => run.stop(),
                }
            }
        }
        self.wake();
    }

    // Does one act of the dispatcher, and returns the kernel to go on with; none if there is
    // nothing to do.
    fn advance<R: Wait, G: Gate>(
        &self,
        rt: &R,
        run: &Run<N>,
        gate: &G,
        desk: &Desk,
        peer: u32,
    ) -> Result<Option<u32>, OutOfMemory> {
        let mut cell = self.cell.lock(rt);
        if let Some(act) = self.own_act(&cell) {
            let progress = cell.act_alone(rt, run.turn(), gate, act)?;
            self.mark(&cell);
            drop(cell);
            self.ring();
            tell(run, self.id, news_of(progress));
            return Ok(Some(peer));
        }
        let Some(act) = turn_act(&cell, desk, peer) else {
            return Ok(None);
        };
        let news = self.act_within(rt, run, gate, desk, &mut cell, act)?;
        // A fetch and a flush only move a message, so no call can go on after them.
        if matches!(act, Act::Kill { .. }) {
            self.mark(&cell);
        }
        drop(cell);
        self.ring();
        tell(run, self.id, news);
        Ok(Some(peer_of(act, peer)))
    }

    // An act of the dispatcher that the kernel can do alone; none if there is none.
    fn own_act(&self, cell: &KernelCell<N>) -> Option<Act>
        ensures { IfSome result IsOwnAct }
    {
        if cell.can(Act::Handle) {
            return Some(Act::Handle);
        }
        for caller in &self.callers {
            let upcall = Act::Upcall { vpe: caller.vpe };
            if cell.can(upcall) {
                return Some(upcall);
            }
        }
        None
    }

    // Does a fetch, a flush or a kill, if the links and the replies allow it. The desk is noted
    // before the turn is taken, so that news after the turn is not lost.
    fn act_within<R: Wait, G: Gate>(
        &self,
        rt: &R,
        run: &Run<N>,
        gate: &G,
        desk: &Desk,
        cell: &mut KernelCell<N>,
        act: Act,
    ) -> Result<News, OutOfMemory> {
        match act {
            Act::Fetch { from } => desk.note_mail(from, false),
            Act::Flush { to } => desk.note_full(to, true),
            _ => {}
        }
        if let Act::Kill { vpe } = act {
            cell.kill(rt, run.turn(), gate, vpe)?;
            return Ok(News::Nothing);
        }
        let Some(linked) = cell.act_within(rt, run.turn(), gate, act)? else {
            return Ok(News::Nothing);
        };
        if !linked.done {
            return Ok(News::Nothing);
        }
        Ok(match act {
            Act::Fetch { from } => {
                if linked.more {
                    desk.note_mail(from, true);
                }
                if linked.full {
                    News::Room { from }
                } else {
                    News::Nothing
                }
            }
            Act::Flush { to } => {
                desk.note_full(to, false);
                News::Mail { to }
            }
            _ => News::Nothing,
        })
    }

    // Marks the VPEs with a call that can go on, and those that have ended.
    fn mark(&self, cell: &KernelCell<N>) {
        for caller in &self.callers {
            let resume = Act::Resume { vpe: caller.vpe };
            if cell.can(resume) || cell.has_ended(caller) {
                caller.due.store(true, Ordering::SeqCst);
            }
        }
    }

    // Rings for the marked VPEs.
    fn ring(&self) {
        for caller in &self.callers {
            if caller.due.load(Ordering::SeqCst) {
                caller.due.store(false, Ordering::SeqCst);
                caller.bell.ring();
            }
        }
    }

    /// Makes the calls of a VPE, one after another, until it has made all, or has ended, or the run
    /// is stopped.
    pub fn call<R: Wait, G: Gate>(&self, rt: &R, run: &Run<N>, gate: &G, caller: &Caller<N>) {
        let mut left = caller.calls;
        let mut open = false;
        for _ in rt.forever() {
            if left == 0 && !open {
                break;
            }
            let progress = match self.go_on(rt, run, gate, caller, open) {
                Ok(Progress::Nothing) => break,
                Ok(progress) => progress,
                Err(_) => {
                    run.stop();
                    break;
                }
            };
            if !open {
                left = left.saturating_sub(1);
            }
            open = progress == Progress::Done;
        }
        run.end_calls();
    }

    // The next call of a VPE, or the waiting one, once it can go on; nothing if it never can.
    fn go_on<R: Wait, G: Gate>(
        &self,
        rt: &R,
        run: &Run<N>,
        gate: &G,
        caller: &Caller<N>,
        open: bool,
    ) -> Result<Progress, OutOfMemory> {
        let act = call_act(caller.vpe, open);
        for _ in rt.forever() {
            caller.bell.hear();
            if run.is_stopped() {
                return Ok(Progress::Nothing);
            }
            let mut cell = self.cell.lock(rt);
            if cell.can(act) {
                let progress = cell.act_alone(rt, run.turn(), gate, act)?;
                self.mark(&cell);
                let desk = self.busy_desk(run, &cell);
                drop(cell);
                self.ring();
                if let Some(desk) = desk {
                    desk.bell.ring();
                }
                tell(run, self.id, news_of(progress));
                return Ok(progress);
            }
            if cell.has_ended(caller) {
                return Ok(Progress::Nothing);
            }
            drop(cell);
            caller.bell.sleep(rt);
        }
        unreachable!()
    }

    // The desk of the kernel, if the dispatcher has something to do there.
    fn busy_desk<'a>(&self, run: &'a Run<N>, cell: &KernelCell<N>) -> Option<&'a Desk> {
        let desk = run.desk(self.id)?;
        let act = match self.own_act(cell) {
            Some(act) => Some(act),
            None => turn_act(cell, desk, 0),
        };
        act.map(|_act| desk)
    }
}
