//! The sample filters as one type.

ghost use Rattle.std.specs.Prelude.{◌≡◌};
ghost use Rattle.fm_callback_data.specs.Data.{current_of};
ghost use Rattle.fm_samples.specs.Sample.{IsQuietSample, SamplesCalls, SamplesLetGo, SamplesPre, SamplesPost, SamplesStart, SamplesUp};

use crate::carry::Carry;
use crate::guard::Guard;
use crate::hold::Hold;
use crate::meter::Meter;
use crate::scan::Scan;
use crate::shift::Shift;
use crate::stay::Stay;
use fm_callback_data::{CallbackData, Completion, PostVerdict, PreVerdict};
use fm_filter::{Agreeable, Port};
use fm_types::{ContextKind, Registration};

/// One of the sample filters, so that a manager of filters of one type can have them all. Each call is that
/// of the filter.
#[derive(Clone, Copy)]
pub enum Sample {
    /// Denies creates below the folder `deny`.
    Guard(Guard),
    /// Counts reads and writes.
    Meter(Meter),
    /// Keeps the bytes of files raised by one.
    Shift(Shift),
    /// Holds reads on the way down.
    Hold(Hold),
    /// Sends a context along with each read.
    Carry(Carry),
    /// Holds reads on the way up.
    Stay(Stay),
    /// Scans what is opened.
    Scan(Scan),
}

impl Agreeable for Sample {
    ghost use Rattle.fm_samples.specs.Sample.{sample_registers, SamplesPre, SamplesPost, SamplesCleanup, IsQuietSample};

    ghost registers = { sample_registers };

    ghost pre_may = { SamplesPre };

    ghost post_may = { SamplesPost };

    ghost cleanup_may = { SamplesCleanup };

    ghost is_quiet = { IsQuietSample };

    fn registration(&self) -> Registration {
        match self {
            Sample::Guard(filter) => filter.registration(),
            Sample::Meter(filter) => filter.registration(),
            Sample::Shift(filter) => filter.registration(),
            Sample::Hold(filter) => filter.registration(),
            Sample::Carry(filter) => filter.registration(),
            Sample::Stay(filter) => filter.registration(),
            Sample::Scan(filter) => filter.registration(),
        }
    }

    fn pre<P: Port>(&self, lent: &mut CallbackData, port: &mut P) -> PreVerdict
        ensures may { SamplesPre self.now lent.old result lent.new }
        ensures kept { lent.new.received ≡ lent.old.received }
        ensures calls { SamplesCalls P.Port self.now (current_of lent.old) result port.old port.new }
        ensures quiet { IsQuietSample self.now → port.new ≡ port.old }
        ensures far { P.kept port.new ≡ P.kept port.old }
    {
        match self {
            Sample::Guard(filter) => filter.pre(lent, port),
            Sample::Meter(filter) => filter.pre(lent, port),
            Sample::Shift(filter) => filter.pre(lent, port),
            Sample::Hold(filter) => filter.pre(lent, port),
            Sample::Carry(filter) => filter.pre(lent, port),
            Sample::Stay(filter) => filter.pre(lent, port),
            Sample::Scan(filter) => filter.pre(lent, port),
        }
    }

    fn post<P: Port>(
        &self,
        lent: &mut CallbackData,
        completion: Completion,
        port: &mut P,
    ) -> PostVerdict
        ensures may { SamplesPost self.now lent.old completion result lent.new }
        ensures kept { lent.new.received ≡ lent.old.received }
        ensures calls { SamplesUp P.Port self.now completion port.old port.new }
        ensures quiet { IsQuietSample self.now → port.new ≡ port.old }
        ensures far { P.kept port.new ≡ P.kept port.old }
    {
        match self {
            Sample::Guard(filter) => filter.post(lent, completion, port),
            Sample::Meter(filter) => filter.post(lent, completion, port),
            Sample::Shift(filter) => filter.post(lent, completion, port),
            Sample::Hold(filter) => filter.post(lent, completion, port),
            Sample::Carry(filter) => filter.post(lent, completion, port),
            Sample::Stay(filter) => filter.post(lent, completion, port),
            Sample::Scan(filter) => filter.post(lent, completion, port),
        }
    }

    fn drain<P: Port>(&self, completion: Completion, port: &mut P)
        ensures calls { SamplesLetGo P.Port self.now completion port.old port.new }
        ensures quiet { IsQuietSample self.now → port.new ≡ port.old }
        ensures far { P.kept port.new ≡ P.kept port.old }
    {
        match self {
            Sample::Carry(filter) => filter.drain(completion, port),
            // They have none of their own.
            Sample::Guard(_)
            | Sample::Meter(_)
            | Sample::Shift(_)
            | Sample::Hold(_)
            | Sample::Stay(_)
            | Sample::Scan(_) => {}
        }
    }

    fn teardown_start<P: Port>(&self, port: &mut P)
        ensures calls { SamplesStart P.Port self.now port.old port.new }
        ensures quiet { IsQuietSample self.now → port.new ≡ port.old }
        ensures far { P.kept port.new ≡ P.kept port.old }
    {
        match self {
            Sample::Hold(filter) => filter.teardown_start(port),
            Sample::Stay(filter) => filter.teardown_start(port),
            // They have none of their own.
            Sample::Guard(_)
            | Sample::Meter(_)
            | Sample::Shift(_)
            | Sample::Carry(_)
            | Sample::Scan(_) => {}
        }
    }

    fn cleanup(&self, kind: ContextKind, body: &[u8]) -> u64 {
        match self {
            Sample::Guard(filter) => filter.cleanup(kind, body),
            Sample::Meter(filter) => filter.cleanup(kind, body),
            Sample::Shift(filter) => filter.cleanup(kind, body),
            Sample::Hold(filter) => filter.cleanup(kind, body),
            Sample::Carry(filter) => filter.cleanup(kind, body),
            Sample::Stay(filter) => filter.cleanup(kind, body),
            Sample::Scan(filter) => filter.cleanup(kind, body),
        }
    }
}
