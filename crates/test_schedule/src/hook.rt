//! The hook that lets one thread go on at a time.

use crate::board::ThreadBoard;
use crate::choice::{Next, Schedule};
use crate::chooser::Chooser;
use fm_operations::FlowAction;
use fm_types::WorkerId;
use fm_worker::CallbackHook;
use std::alloc::Global;
use std::sync::{Condvar, CondvarTimeouts, Mutex, MutexGuard, Wait};
use std::time::{Clock, Duration};

/// A hook before callbacks that lets one thread go on at a time. A thread gives up its turn when it comes to the hook, pauses or leaves; then one of those that
/// stand at the hook is picked, by the chooser. So the callbacks of all threads have one order, and the same chooser has the same order again.
///
/// Everybody passes until `expect` is called, and again after the last thread has left: so a test sets up and cleans up by the same workers.
///
/// The order is the choices' alone as long as no thread waits for another one between two callbacks. One that does can't give up its turn. If nobody came or
/// left for the time `patience`, the hook goes on without the thread that is at work, and counts it (`Schedule::passed_over`). From then on two threads may run
/// at once, and time has a part in the order. That is so of a worker that waits for a job, and of a client that waits for an answer. So put all jobs and Stops
/// before the threads begin, and leave before a wait. A test without such waits takes a patience of seconds, and one with them of some 20 milliseconds.
///
/// Nothing is promised of it by a contract, fairness neither. Threads meet at callbacks of operations alone: two instructions inside callbacks aren't
/// interleaved, and the callbacks of an attach, a detach or an unload have no hook.
#[derive(Drop)]
pub struct ScheduleHook<'a, R> {
    rt: &'a R,
    patience: Duration,
    board: Mutex<ThreadBoard>,
    moved: Condvar,
}

impl<'a, R: Wait + Clock> ScheduleHook<'a, R> {
    /// A hook that everybody passes. It goes on without a thread that doesn't come for that time.
    pub fn new(
        rt: &'a R,
        alloc: Global,
        patience: Duration,
        chooser: Chooser,
    ) -> ScheduleHook<'a, R> {
        ScheduleHook {
            rt,
            patience,
            board: Mutex::new(ThreadBoard::new(alloc, chooser)),
            moved: Condvar::new(),
        }
    }

    /// From now on nobody passes, and nobody goes on until so many threads have entered.
    pub fn expect(&self, threads: u32) {
        self.board.lock(self.rt).expect(threads);
    }

    /// A thread begins, with the worker of that number. Threads begin one after another, in the order of their workers' numbers, each until it comes to the hook:
    /// that is no choice. Each leaves at its end.
    pub fn enter(&self, worker: WorkerId) {
        let mut board = self.board.lock(self.rt);
        board.enter(worker);
        self.wait(board, worker);
    }

    /// A thread that has entered gives up its turn before it does something of its own, as a detach: when it does so is a choice, shown with that number.
    pub fn pause(&self, worker: WorkerId, number: u32) {
        self.stand(worker, Next::Own(number));
    }

    /// A thread that has entered doesn't come to the hook any more: it ends, or waits for an answer.
    pub fn leave(&self, worker: WorkerId) {
        self.board.lock(self.rt).leave(worker);
        self.moved.notify_all();
    }

    /// What was chosen.
    pub fn into_schedule(self) -> Schedule {
        self.board.into_inner().into_schedule()
    }

    // Comes to the hook, and waits there, unless everybody passes.
    fn stand(&self, worker: WorkerId, next: Next) {
        let mut board = self.board.lock(self.rt);
        if !board.is_idle() {
            board.come(worker, next);
            self.wait(board, worker);
        }
    }

    // Waits until a thread is let go.
    fn wait(&self, board: MutexGuard<'_, ThreadBoard>, worker: WorkerId) {
        let mut board = board;
        self.moved.notify_all();
        for _ in self.rt.forever() {
            if !board.has_standing(worker) {
                return;
            }
            board = self.look(board);
        }
        unreachable!()
    }

    // Waits for a move, and no longer than the patience.
    fn look<'b>(&self, board: MutexGuard<'b, ThreadBoard>) -> MutexGuard<'b, ThreadBoard> {
        let moves = board.moves();
        let (mut board, waited) = self.moved.wait_timeout(self.rt, board, self.patience);
        if waited.timed_out() && board.moves() == moves {
            board.pass_over();
            self.moved.notify_all();
        }
        board
    }
}

impl<R: Wait + Clock + Sync> CallbackHook for ScheduleHook<'_, R> {
    fn before(&self, worker: WorkerId, action: &FlowAction) {
        self.stand(worker, Next::of(action));
    }
}
