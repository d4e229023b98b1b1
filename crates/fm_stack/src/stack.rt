//! The table of filters, volumes and instances, and the events that change it.

ghost use Rattle.std.specs.Prelude.{List, ◌≡◌, ◌<◌, ◌≤◌, ◌+◌, ◌||◌, nat_le, count_by, length, true, slice_get, Some, None};
ghost use Rattle.std.specs.List.{list_any, insert, remove};
ghost use Rattle.std.specs.Option.{option_map};
ghost use Rattle.fm_types.specs.Refusals.{first_of};
ghost use Rattle.fm_types.specs.Lists.{updated};
ghost use Rattle.fm_stack.specs.StackWorld.{empty_stack};
ghost use Rattle.fm_stack.specs.Stacks.{IsStack};
ghost use Rattle.fm_stack.specs.Follows.{Follows};
ghost use Rattle.fm_stack.specs.Events.{Registers, Mounts, Attaches, SetsUp, is_named, has_name_on, has_altitude_on, register_refusals, mount_refusals, attach_refusals, setup_refusals, is_wanted, is_setup_at, accepted, refused, accept_row, finished, is_emptying_at};
ghost use Rattle.fm_stack.specs.Instances.{is_left, is_live_on, registration_in, registration_of, same_name};
ghost use Rattle.fm_types.specs.declared.ids.InstanceId.{InstanceId};
ghost use Rattle.fm_stack.specs.declared.filter.Filter.{Filter};
ghost use Rattle.fm_stack.specs.declared.volume.Volume.{Volume};
ghost use Rattle.fm_stack.specs.declared.instance.Instance.{Instance};
ghost use Rattle.fm_stack.specs.declared.order.Seat.{Seat as KeptSeat};
ghost use Rattle.fm_stack.specs.Next.{IsNextInstance};
ghost use Rattle.fm_stack.specs.Orders.{IsOrder};

use crate::filter::{Filter, FilterPhase};
use crate::instance::{self, Instance, Phase};
use crate::order::{self, Order, Seat};
use crate::volume::{Volume, VolumePhase};
use fm_altitude::Altitude;
use fm_types::limits::{FILTERS, INSTANCES, LIVE, VOLUMES};
use fm_types::{FilterId, InstanceId, Name, Operation, Registration, Status, VolumeId};
use std::alloc::Global;
use std::marker::Model;

/// All filters, volumes and instances of one run, by the numbers of their ids. Contracts see a
/// `StackWorld`. Beside it the stack keeps the order of each volume, so that no search meets an
/// instance that is detached or on another volume.
#[derive(Drop)]
pub struct Stack {
    alloc: Global,
    pub(crate) filters: Vec<Filter>,
    pub(crate) volumes: Vec<Volume>,
    orders: Vec<Order>,
    pub(crate) instances: Vec<Instance>,
    births: u64,
}

impl Model for Stack {
    ghost use Rattle.fm_stack.specs.StackWorld.{StackWorld};

    ghost Value = { StackWorld };

    ghost use Rattle.fm_stack.specs.Orders.{IsKept};

    ghost view = { λ s. record { filters = s.filters.items; volumes = s.volumes.items; instances = s.instances.items; births = s.births } };

    ghost invariant = { λ s. IsKept (record { filters = s.filters.items; volumes = s.volumes.items; instances = s.instances.items; births = s.births }) s.orders.items };
}

// Ends the setup of one row by attaching it.
fn accept_at(rows: &mut Vec<Instance>, at: usize, births: u64)
    requires { at < length rows.old.items }
    ensures { rows.new.items ≡ updated (accept_row births) rows.old.items at }
{
    rows[at].accept(births);
}

// One more seat in one order.
fn insert_at(orders: &mut Vec<Order>, at: usize, place: usize, seat: Seat)
    requires there { at < length orders.old.items }
    requires fits { (seats : List KeptSeat) → slice_get orders.old.items at ≡ Some seats → (place ≤ length seats) × (length seats < 32) }
    ensures { orders.new.items ≡ updated (λ (seats : List KeptSeat). insert seats place seat) orders.old.items at }
{
    orders[at].insert(place, seat);
}

// One seat fewer in one order.
fn remove_at(orders: &mut Vec<Order>, at: usize, place: usize)
    requires there { at < length orders.old.items }
    requires within { (seats : List KeptSeat) → slice_get orders.old.items at ≡ Some seats → place < length seats }
    ensures { orders.new.items ≡ updated (λ (seats : List KeptSeat). remove seats place) orders.old.items at }
{
    orders[at].remove(place);
}

impl Stack {
    /// A stack of nothing; takes no memory.
    pub fn new(alloc: Global) -> Stack
        ensures { result ≡ empty_stack }
    {
        Stack {
            alloc,
            filters: Vec::new(alloc),
            volumes: Vec::new(alloc),
            orders: Vec::new(alloc),
            instances: Vec::new(alloc),
            births: 0,
        }
    }

    /// What holds of every stack, for callers that need it.
    pub fn laws(&self)
        ensures { IsStack self.now }
    {
        let _births = &self.births;
    }

    /// How many filters were registered in this run; their ids are the numbers below.
    pub fn filters(&self) -> usize
        ensures { result ≡ length self.now.filters }
    {
        self.filters.len()
    }

    /// How many instances were attached in this run; their ids are the numbers below.
    pub fn instances(&self) -> usize
        ensures { result ≡ length self.now.instances }
    {
        self.instances.len()
    }

    /// How many instances aren't Detached.
    pub fn instances_left(&self) -> usize
        ensures { result ≡ count_by is_left self.now.instances }
    {
        self.instances.iter().filter(|row| row.is_left()).count()
    }

    /// How far the life of a filter has come, if there is one of that id.
    pub fn filter_phase(&self, filter: FilterId) -> Option<FilterPhase>
        ensures { result ≡ option_map (λ (row : Filter). row.phase) (slice_get self.now.filters filter.0) }
    {
        let row = self.filters.get(filter.0 as usize)?;
        Some(row.phase)
    }

    /// How far the life of an instance has come, if there is one of that id.
    pub fn phase(&self, instance: InstanceId) -> Option<Phase>
        ensures { result ≡ option_map (λ (row : Instance). row.phase) (slice_get self.now.instances instance.0) }
    {
        let row = self.instances.get(instance.0 as usize)?;
        Some(row.phase)
    }

    /// Whose instance it is, if there is one of that id.
    pub fn filter_of(&self, instance: InstanceId) -> Option<FilterId>
        ensures { result ≡ option_map (λ (row : Instance). row.filter) (slice_get self.now.instances instance.0) }
    {
        let row = self.instances.get(instance.0 as usize)?;
        Some(row.filter)
    }

    /// The volume that the instance is on, if there is an instance of that id
    /// (`FltGetVolumeFromInstance`).
    pub fn volume_of(&self, instance: InstanceId) -> Option<VolumeId>
        ensures { result ≡ option_map (λ (row : Instance). row.volume) (slice_get self.now.instances instance.0) }
    {
        let row = self.instances.get(instance.0 as usize)?;
        Some(row.volume)
    }

    /// What the filter of an instance registered for, if there is an instance of that id.
    pub fn registration_of(&self, instance: InstanceId) -> Option<Registration>
        ensures { result ≡ registration_of self.now instance }
    {
        let row = self.instances.get(instance.0 as usize)?;
        let filter = self.filters.get(row.filter.0 as usize)?;
        Some(filter.registration)
    }

    fn registration_in(&self, filter: FilterId) -> Option<Registration>
        ensures { result ≡ registration_in self.now.filters filter }
    {
        let row = self.filters.get(filter.0 as usize)?;
        Some(row.registration)
    }

    // The instances on a volume that aren't detached, the highest first.
    pub(crate) fn seats(&self, volume: VolumeId) -> &[Seat]
        ensures { IsOrder self.now.filters self.now.instances volume result.now }
    {
        order::seats_at(&self.orders, volume)
    }

    /// How far the life of a volume has come, if there is one of that id.
    pub fn volume_phase(&self, volume: VolumeId) -> Option<VolumePhase>
        ensures { result ≡ option_map (λ (row : Volume). row.phase) (slice_get self.now.volumes volume.0) }
    {
        let row = self.volumes.get(volume.0 as usize)?;
        Some(row.phase)
    }

    /// How many instances became attached in this run: what begins now is for those alone.
    pub fn births(&self) -> u64
        ensures { result ≡ self.now.births }
    {
        self.births
    }
}

// The events.
impl Stack {
    fn has_filter(&self, name: &Name) -> bool
        ensures { result ≡ list_any (is_named name.now) self.now.filters }
    {
        self.filters.iter().any(|filter| filter.is_named(name))
    }

    fn register_refusal(&self, name: &Name) -> Option<Status>
        ensures { result ≡ first_of (register_refusals self.now name.now) }
    {
        if self.has_filter(name) {
            return Some(Status::AlreadyLoaded);
        }
        if self.filters.len() >= FILTERS {
            return Some(Status::TooMany);
        }
        None
    }

    /// Registers a filter (`FltRegisterFilter` and `FltStartFiltering`): it is loaded, under the next
    /// id. Refused, with nothing changed, in this order: `AlreadyLoaded` (10) where a filter of that
    /// name isn't unloaded, `TooMany` (29) where 16 filters were registered in this run, `NoMemory` (1).
    #[tactic(auto, unfolding(crate::specs::Events::Registers))]
    pub fn register(&mut self, name: Name, registration: Registration) -> Result<FilterId, Status>
        ensures event { Registers self.old name registration result self.new }
        ensures follows { Follows self.old self.new }
    {
        if let Some(status) = self.register_refusal(&name) {
            return Err(status);
        }
        let id = FilterId(self.filters.len() as u8);
        let phase = FilterPhase::Loaded;
        let Ok(()) = self.filters.push(Filter {
            name,
            registration,
            phase,
        })
        else {
            return Err(Status::NoMemory);
        };
        Ok(id)
    }

    fn has_volume(&self, name: &Name) -> bool
        ensures { result ≡ list_any (λ (volume : Volume). same_name volume.name name.now) self.now.volumes }
    {
        self.volumes.iter().any(|volume| volume.name == *name)
    }

    fn mount_refusal(&self, name: &Name) -> Option<Status>
        ensures { result ≡ first_of (mount_refusals self.now name.now) }
    {
        if self.has_volume(name) {
            return Some(Status::NameCollision);
        }
        if self.volumes.len() >= VOLUMES {
            return Some(Status::TooMany);
        }
        None
    }

    /// Mounts a volume, under the next id. Refused, with nothing changed, in this order:
    /// `NameCollision` (4) where a volume of that name was mounted in this run, `TooMany` (29) where 8
    /// volumes were, `NoMemory` (1).
    #[tactic(auto, unfolding(crate::specs::Events::Mounts))]
    pub fn mount(&mut self, name: Name) -> Result<VolumeId, Status>
        ensures event { Mounts self.old name result self.new }
        ensures follows { Follows self.old self.new }
    {
        if let Some(status) = self.mount_refusal(&name) {
            return Err(status);
        }
        let Ok(order) = Order::new(self.alloc) else {
            return Err(Status::NoMemory);
        };
        let Ok(()) = self.orders.reserve(1) else {
            return Err(Status::NoMemory);
        };
        let id = VolumeId(self.volumes.len() as u8);
        let phase = VolumePhase::Mounted;
        let Ok(()) = self.volumes.push(Volume { name, phase }) else {
            return Err(Status::NoMemory);
        };
        self.orders.push_reserved(order);
        Ok(id)
    }

    fn is_full(&self, volume: VolumeId) -> bool
        ensures { result ≡ (nat_le 32 (count_by (is_live_on volume) self.now.instances) || nat_le 4096 (length self.now.instances)) }
    {
        self.seats(volume).len() >= LIVE || self.instances.len() >= INSTANCES
    }

    fn has_name_on(&self, volume: VolumeId, name: &Name) -> bool
        ensures { result ≡ list_any (has_name_on volume name.now) self.now.instances }
    {
        order::has_name_on(&self.instances, self.seats(volume), volume, name)
    }

    fn has_altitude_on(&self, volume: VolumeId, altitude: &Altitude) -> bool
        ensures { result ≡ list_any (has_altitude_on volume altitude.now) self.now.instances }
    {
        order::has_altitude_on(&self.instances, self.seats(volume), volume, altitude)
    }

    fn attach_refusal(
        &self,
        filter: FilterId,
        volume: VolumeId,
        name: &Name,
        altitude: &Altitude,
    ) -> Option<Status>
        ensures { result ≡ first_of (attach_refusals self.now filter volume name.now altitude.now) }
    {
        let Some(row) = self.filters.get(filter.0 as usize) else {
            return Some(Status::NoFilter);
        };
        if !row.is_loaded() {
            return Some(Status::NotLoaded);
        }
        let Some(row) = self.volumes.get(volume.0 as usize) else {
            return Some(Status::NoVolume);
        };
        if !row.is_mounted() {
            return Some(Status::Dismounting);
        }
        if self.has_name_on(volume, name) {
            return Some(Status::NameCollision);
        }
        if self.has_altitude_on(volume, altitude) {
            return Some(Status::AltitudeCollision);
        }
        if self.is_full(volume) {
            return Some(Status::TooMany);
        }
        None
    }

    /// Attaches an instance of a filter to a volume (`FltAttachVolumeAtAltitude`): it begins its setup,
    /// under the next id. Refused, with nothing changed, in this order: `NoFilter` (6), `NotLoaded` (9),
    /// `NoVolume` (7), `Dismounting` (33) where a dismount of the volume has begun, `NameCollision` (4)
    /// and `AltitudeCollision` (5) where an instance on the volume that isn't detached has that name or
    /// an equal altitude, `TooMany` (29) where the volume has 32 instances that aren't detached or 4,096
    /// were attached in this run, `NoMemory` (1).
    #[tactic(auto, unfolding(crate::specs::Events::Attaches))]
    pub fn attach(
        &mut self,
        filter: FilterId,
        volume: VolumeId,
        name: Name,
        altitude: Altitude,
    ) -> Result<InstanceId, Status>
        ensures event { Attaches self.old filter volume name altitude result self.new }
        ensures follows { Follows self.old self.new }
    {
        if let Some(status) = self.attach_refusal(filter, volume, &name, &altitude) {
            return Err(status);
        }
        let Some(registration) = self.registration_in(filter) else {
            unreachable!();
        };
        let seats = order::seats_at(&self.orders, volume);
        let place = order::place_under(&self.instances, seats, &altitude);
        let instance = InstanceId(self.instances.len() as u16);
        let Ok(()) = self
            .instances
            .push(Instance::new(filter, volume, name, altitude))
        else {
            return Err(Status::NoMemory);
        };
        let seat = Seat {
            instance,
            registration,
        };
        insert_at(&mut self.orders, volume.0 as usize, place, seat);
        Ok(instance)
    }

    fn is_wanted(&self, instance: InstanceId) -> bool
        ensures { result ≡ is_wanted self.now (slice_get self.now.instances instance.0) }
    {
        let Some(row) = self.instances.get(instance.0 as usize) else {
            return false;
        };
        let Some(filter) = self.filters.get(row.filter.0 as usize) else {
            return false;
        };
        let Some(volume) = self.volumes.get(row.volume.0 as usize) else {
            return false;
        };
        filter.is_loaded() && volume.is_mounted()
    }

    fn setup_refusal(&self, instance: InstanceId, accept: bool) -> Option<Status>
        ensures { result ≡ first_of (setup_refusals self.now instance accept) }
    {
        if !accept {
            return Some(Status::DoNotAttach);
        }
        if !self.is_wanted(instance) {
            return Some(Status::DeletingObject);
        }
        None
    }

    fn accept(&mut self, instance: InstanceId)
        requires { is_setup_at (slice_get self.old.instances instance.0) ≡ true }
        ensures event { self.new ≡ accepted self.old instance }
        ensures follows { Follows self.old self.new }
    {
        let births = self.births;
        accept_at(&mut self.instances, instance.0 as usize, births);
        self.births = births + 1;
    }

    fn refuse(&mut self, instance: InstanceId)
        requires { is_setup_at (slice_get self.old.instances instance.0) ≡ true }
        ensures event { self.new ≡ refused self.old instance }
        ensures follows { Follows self.old self.new }
    {
        instance::set_phase(&mut self.instances, instance.0 as usize, Phase::Emptying);
    }

    /// Ends the setup callback of an instance (`InstanceSetupCallback` returns). Accepted, the instance
    /// is attached, as the next that was born. Refused with `DoNotAttach` (11) where the filter doesn't
    /// accept, and with `DeletingObject` (13) where the filter isn't loaded any more or a dismount of the
    /// volume has begun: the instance leaves again and waits for its contexts to be cleaned up.
    #[tactic(auto, unfolding(crate::specs::Events::SetsUp))]
    pub fn setup_done(&mut self, instance: InstanceId, accept: bool) -> Result<(), Status>
        requires { is_setup_at (slice_get self.old.instances instance.0) ≡ true }
        ensures event { SetsUp self.old instance accept result self.new }
        ensures follows { Follows self.old self.new }
    {
        if let Some(status) = self.setup_refusal(instance, accept) {
            self.refuse(instance);
            return Err(status);
        }
        self.accept(instance);
        Ok(())
    }

    /// Ends an instance whose contexts wait for nothing any more (as the manager does when an instance's last reference
    /// goes after its teardown): its phase is Detached, its name and altitude are free again.
    pub fn finish(&mut self, instance: InstanceId)
        requires { is_emptying_at (slice_get self.old.instances instance.0) ≡ true }
        ensures event { self.new ≡ finished self.old instance }
        ensures follows { Follows self.old self.new }
    {
        let volume = self.instances[instance.0 as usize].volume;
        let seats = order::seats_at(&self.orders, volume);
        let Some(place) = order::place_of(seats, instance) else {
            unreachable!();
        };
        instance::set_phase(&mut self.instances, instance.0 as usize, Phase::Detached);
        remove_at(&mut self.orders, volume.0 as usize, place);
    }
}

// The next instance of an operation.
impl Stack {
    /// The next instance that an operation visits: of the attached instances on the volume that were
    /// born before it (below `born`), whose filter registered a callback before or after the operation,
    /// and that stand lower than the one visited last (`cursor`; none: all), the highest. None where
    /// there is none. `guess` is how many of the volume's instances stand above the one visited last:
    /// a right one saves a search, and a wrong one changes nothing of the answer.
    #[inline(always)]
    pub fn next_below(
        &self,
        volume: VolumeId,
        cursor: Option<InstanceId>,
        guess: usize,
        born: u64,
        operation: Operation,
    ) -> Option<InstanceId>
        ensures { IsNextInstance self.now volume (option_map (λ (i : InstanceId). i.0) cursor) born operation result }
    {
        let seats = self.seats(volume);
        let place = order::place_behind(&self.instances, seats, cursor, guess);
        order::next_visited(&self.instances, &seats[place..], born, operation)
    }
}
