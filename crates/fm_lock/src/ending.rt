//! Hands go out and come back, and a manager ends.

ghost use Rattle.std.specs.Prelude.{◌≡◌, All, true, false, IfOk, IfErr};
ghost use Rattle.fm_ctx.specs.Counting.{born, cleaned_count};
ghost use Rattle.fm_world.specs.Ending.{busy_of, IsOver};
ghost use Rattle.fm_world.specs.Hands.{worker_pairs};
ghost use Rattle.fm_lock.specs.Hired.{AreHired, Hires, Retires, is_retired, are_hired};
ghost use Rattle.fm_lock.specs.Views.{held_by};

use crate::audit::audit;
use crate::hand::Hand;
use crate::hired::are_hired;
use crate::locked::Locked;
use crate::report::Report;
use fm_core::State;
use fm_types::{Status, WorkerId};
use std::sync::ledger::Ledger;

/// A state's report.
fn report_of(state: State) -> Report
    ensures state { result.state ≡ state }
    ensures born { result.born ≡ born state.contexts.slots }
    ensures cleaned { result.cleaned ≡ cleaned_count state.contexts.slots }
    ensures leaks { result.leaks ≡ state.contexts.leaks }
{
    Report {
        born: state.born(),
        cleaned: state.cleaned_count(),
        leaks: state.leaks(),
        state,
    }
}

impl<L: Ledger> Locked<L> {
    /// Gives out the hand of a worker whose hand is in. It holds nothing. Refused with 29, nothing changed, if all 48 are out.
    pub fn hire(&mut self) -> Result<Hand<L>, Status>
        ensures ok { IfOk result (λ hand. Hires hand self.old self.new) }
        ensures err { IfErr result (λ status. (status ≡ Status.TooMany) × All (λ is_out. is_out ≡ true) self.old.hired × (self.new ≡ self.old)) }
    {
        let Some(place) = self.hired.iter().position(|is_out| !*is_out) else {
            return Err(Status::TooMany);
        };
        self.hired[place] = true;
        Ok(Hand {
            worker: WorkerId(place as u8),
            held: 0,
            share: self.rest.split_off(1, 0),
        })
    }

    /// Takes a hand back. Refused with 30, nothing changed and the hand handed back: if its worker isn't idle, or its number isn't the State's. So a hand that
    /// is taken holds nothing.
    #[tactic(auto, using(crate::proofs::Idling::idle_holds_none, crate::proofs::Outs::one_fewer))]
    pub fn retire(&mut self, hand: Hand<L>) -> Result<(), (Hand<L>, Status)>
        ensures ok { IfOk result (λ done. Retires hand self.old self.new) }
        ensures err { IfErr result (λ refused. (refused.1 ≡ Status.WrongStep) × (refused.0 ≡ hand) × (self.new ≡ self.old)) }
        ensures why { IfErr result (λ refused. is_retired hand self.old ≡ false) }
    {
        let worker = hand.worker();
        let at = usize::from(worker.0);
        self.state.laws();
        if !self.state.is_idle(worker) || self.state.hand_len(worker) as u64 != hand.held() {
            return Err((hand, Status::WrongStep));
        }
        // No hand is in and out at once. The parts of the ledger say so, and a single hand doesn't: so it is tested.
        if !self.hired[at] {
            return Err((hand, Status::WrongStep));
        }
        self.hired[at] = false;
        let Hand { share, .. } = hand;
        self.rest.merge(share);
        Ok(())
    }

    /// Ends the manager, if the hands are all that are out, each once, and nothing is left of its life. Beside that it shows that the hands hold together what
    /// the State says that workers hold. Refused with everything handed back: 32 if they aren't those hands, 34 with the number of operations, open handles,
    /// instances that aren't Detached and contexts that aren't cleaned up.
    #[tactic(auto, using(crate::proofs::Outs::hired_counts))]
    pub fn close(self, hands: Vec<Hand<L>>) -> Result<Report, (Locked<L>, Vec<Hand<L>>, Status)>
        requires { L.parts ≡ 49 }
        ensures sum { AreHired self.hired hands.items → worker_pairs self.world ≡ held_by hands.items }
        ensures ok { IfOk result (λ report. AreHired self.hired hands.items × (report.state ≡ self.world) × IsOver self.world) }
        ensures born { IfOk result (λ report. report.born ≡ born self.world.contexts.slots) }
        ensures cleaned { IfOk result (λ report. report.cleaned ≡ cleaned_count self.world.contexts.slots) }
        ensures leaks { IfOk result (λ report. report.leaks ≡ self.world.contexts.leaks) }
        ensures back { IfErr result (λ refused. (refused.0 ≡ self) × (refused.1.items ≡ hands.items)) }
        ensures busy { IfErr result (λ refused. AreHired self.hired hands.items → refused.2 ≡ Status.Busy (busy_of self.world)) }
        ensures hired { IfErr result (λ refused. are_hired self.hired hands.items ≡ false → refused.2 ≡ Status.BadRequest) }
    {
        let mut locked = self;
        let mut hands = hands;
        let mut hired = locked.hired;
        if !are_hired(&mut hired, hands.as_slice()) {
            return Err((locked, hands, Status::BadRequest));
        }
        audit(&mut locked.book, &mut locked.rest, hands.as_mut_slice());
        let busy = locked.state.busy();
        if busy != 0 {
            return Err((locked, hands, Status::Busy(busy)));
        }
        locked.state.end();
        let Locked { state, .. } = locked;
        Ok(report_of(state))
    }
}
