//! Instances: one attachment of a filter to a volume, at an altitude.

ghost use Rattle.std.specs.Prelude.{◌≡◌, ◌<◌, length, map};
ghost use Rattle.fm_types.specs.Lists.{updated};
ghost use Rattle.fm_stack.specs.Events.{has_name_on, has_altitude_on, new_instance, accept_row};
ghost use Rattle.fm_stack.specs.Detaching.{in_phase, with_start, is_to_start, is_to_complete};
ghost use Rattle.fm_stack.specs.Unloading.{is_of, is_left_of, stop_where};
ghost use Rattle.fm_stack.specs.Dismounting.{is_on};
ghost use Rattle.fm_stack.specs.Instances.{is_left, is_lower, is_live_on};

use fm_altitude::Altitude;
use fm_types::{FilterId, Name, VolumeId};

/// How far an instance's life has come.
#[derive(Clone, Copy, Debug, PartialEq, Eq)]
pub enum Phase {
    /// In its setup callback.
    Setup,
    /// It is called for the operations that its filter registered.
    Attached,
    /// Being torn down: it gets no new operation.
    Stopping,
    /// In its teardown-complete callback.
    Completing,
    /// Its contexts are unlinked and wait for their cleanup.
    Emptying,
    /// Gone. Its name and altitude are free again.
    Detached,
}

/// Whether the teardown-start callback was made.
#[derive(Clone, Copy, Debug, PartialEq, Eq)]
pub enum StartMark {
    /// It wasn't made.
    NotMade,
    /// It runs.
    Made,
    /// It returned.
    Returned,
}

/// An instance that was attached in this run. Rows are kept for good.
#[derive(Drop)]
pub struct Instance {
    /// Whose instance it is.
    pub filter: FilterId,
    /// The volume that it is attached to.
    pub volume: VolumeId,
    /// Its name, which no other instance on the volume has that isn't detached.
    pub name: Name,
    /// Its altitude, which no other instance on the volume has that isn't detached.
    pub altitude: Altitude,
    /// How many instances became attached before it did; 0 until it is attached.
    pub birth: u64,
    /// How far its life has come.
    pub phase: Phase,
    /// Whether its teardown-start callback was made.
    pub start: StartMark,
}

impl Instance {
    /// An instance that begins its setup.
    pub fn new(filter: FilterId, volume: VolumeId, name: Name, altitude: Altitude) -> Instance
        ensures { result ≡ new_instance filter volume name altitude }
    {
        Instance {
            filter,
            volume,
            name,
            altitude,
            birth: 0,
            phase: Phase::Setup,
            start: StartMark::NotMade,
        }
    }

    /// Whether the instance isn't detached.
    pub fn is_left(&self) -> bool
        ensures { result ≡ is_left self.now }
    {
        !matches!(self.phase, Phase::Detached)
    }

    /// Whether the instance is on that volume and isn't detached, so that it takes up its name and its
    /// altitude there.
    pub fn is_live_on(&self, volume: VolumeId) -> bool
        ensures { result ≡ is_live_on volume self.now }
    {
        self.volume.0 == volume.0 && !matches!(self.phase, Phase::Detached)
    }

    /// Whether the instance takes up that name on that volume.
    pub fn has_name_on(&self, volume: VolumeId, name: &Name) -> bool
        ensures { result ≡ has_name_on volume name.now self.now }
    {
        self.is_live_on(volume) && self.name == *name
    }

    /// Whether the instance takes up that altitude on that volume.
    pub fn has_altitude_on(&self, volume: VolumeId, altitude: &Altitude) -> bool
        ensures { result ≡ has_altitude_on volume altitude.now self.now }
    {
        self.is_live_on(volume) && self.altitude.cmp(altitude).is_eq()
    }

    /// Whether the instance stands lower than the other one.
    pub fn is_lower(&self, other: &Instance) -> bool
        ensures { result ≡ is_lower self.now.altitude other.now.altitude }
    {
        self.altitude.cmp(&other.altitude).is_lt()
    }

    /// Ends the setup: the instance is attached, and was born as the next behind that many.
    pub fn accept(&mut self, births: u64)
        ensures { self.new ≡ accept_row births self.old }
    {
        self.phase = Phase::Attached;
        self.birth = births;
    }

    /// Whether the instance is of that filter and isn't detached.
    pub fn is_left_of(&self, filter: FilterId) -> bool
        ensures { result ≡ is_left_of filter self.now }
    {
        self.filter.0 == filter.0 && !matches!(self.phase, Phase::Detached)
    }

    /// Whether the teardown of the instance may start: it is stopping, and no start was made.
    pub fn is_to_start(&self) -> bool
        ensures { result ≡ is_to_start self.now }
    {
        matches!(self.phase, Phase::Stopping) && matches!(self.start, StartMark::NotMade)
    }

    /// Whether the teardown of the instance may be completed, as far as the instance itself knows: it is
    /// stopping, and the start returned.
    pub fn is_to_complete(&self) -> bool
        ensures { result ≡ is_to_complete self.now }
    {
        matches!(self.phase, Phase::Stopping) && matches!(self.start, StartMark::Returned)
    }

    /// Stops the instance, where it is attached and of that filter: no new operation comes to it.
    fn stop_of(&mut self, filter: FilterId)
        ensures { self.new ≡ stop_where (is_of filter) self.old }
    {
        if self.filter.0 == filter.0 && matches!(self.phase, Phase::Attached) {
            self.phase = Phase::Stopping;
        }
    }

    /// Stops the instance, where it is attached to that volume: no new operation comes to it.
    fn stop_on(&mut self, volume: VolumeId)
        ensures { self.new ≡ stop_where (is_on volume) self.old }
    {
        if self.volume.0 == volume.0 && matches!(self.phase, Phase::Attached) {
            self.phase = Phase::Stopping;
        }
    }
}

/// One instance goes on to that phase.
pub fn set_phase(rows: &mut Vec<Instance>, at: usize, phase: Phase)
    requires { at < length rows.old.items }
    ensures { rows.new.items ≡ updated (in_phase phase) rows.old.items at }
{
    rows[at].phase = phase;
}

/// How far the teardown-start callback of one instance has come.
pub fn set_start(rows: &mut Vec<Instance>, at: usize, start: StartMark)
    requires { at < length rows.old.items }
    ensures { rows.new.items ≡ updated (with_start start) rows.old.items at }
{
    rows[at].start = start;
}

/// Stops the attached instances of a filter.
pub fn stop_of(rows: &mut Vec<Instance>, filter: FilterId)
    ensures { rows.new.items ≡ map (stop_where (is_of filter)) rows.old.items }
{
    for row in rows.iter_mut() {
        row.stop_of(filter);
    }
}

/// Stops the attached instances on a volume.
pub fn stop_on(rows: &mut Vec<Instance>, volume: VolumeId)
    ensures { rows.new.items ≡ map (stop_where (is_on volume)) rows.old.items }
{
    for row in rows.iter_mut() {
        row.stop_on(volume);
    }
}
