// What the kernels do not tell of keys, by the entries that lead to a world.
use sem_check::Note;
use sem_kernel::World;
use sem_key::{Key, Object, OutOfMemory, same_key};
use sem_msg::{Act, Detail, Entry, Message, Setup};
use std::alloc::Global;

/// A key that was granted to a VPE of another kernel and is not yet installed, and whether its
/// ObtainOk has arrived.
#[derive(Clone, Copy, Debug)]
struct Flight {
    key: Key,
    has_arrived: bool,
}

/// What entries tell of keys: the objects of the keys made by then, in the order in which they were
/// made, and which keys are on their way.
#[derive(Drop)]
pub struct Tracks {
    pub objects: Vec<Object>,
    flights: Vec<Flight>,
}

impl Note for Tracks {
    fn note(
        &mut self,
        setup: &Setup,
        world: &World,
        _past: &[Entry],
        entry: &Entry,
    ) -> Result<(), OutOfMemory> {
        self.note_flight(setup, world, entry)?;
        self.note_object(world, entry)
    }
}

impl Tracks {
    /// Those before the first entry.
    pub fn start(alloc: Global, setup: &Setup) -> Result<Tracks, OutOfMemory> {
        let mut objects = Vec::new(alloc);
        for decl in setup.vpes.as_slice() {
            for root in decl.roots.as_slice() {
                objects.push(root.object)?;
            }
        }
        Ok(Tracks {
            objects,
            flights: Vec::new(alloc),
        })
    }

    /// Whether the key is on its way to another kernel.
    pub fn is_on_its_way(&self, key: Key) -> bool {
        self.flights
            .iter()
            .any(|flight| same_key(&flight.key, &key))
    }

    // Notes which key the entry sends on its way, and which it lands.
    fn note_flight(
        &mut self,
        setup: &Setup,
        world: &World,
        entry: &Entry,
    ) -> Result<(), OutOfMemory> {
        if let Some((_, child)) = entry.grant
            && setup.kernel_of(child.vpe) != entry.event.kernel
        {
            self.flights.push(Flight {
                key: child,
                has_arrived: false,
            })?;
            return Ok(());
        }
        match (entry.event.act, entry.detail) {
            (Act::Handle, Detail::Carried { message, .. }) => self.note_message(world, &message),
            (Act::Resume { vpe } | Act::Kill { vpe }, _) => {
                self.flights
                    .retain(|flight| flight.key.vpe != vpe || !flight.has_arrived);
            }
            _ => {}
        }
        Ok(())
    }

    // Notes what the handled message does to keys on their way.
    fn note_message(&mut self, world: &World, message: &Message) {
        match *message {
            Message::ObtainOk { key, .. } if world.is_alive(key.vpe) => {
                for flight in &mut self.flights {
                    if same_key(&flight.key, &key) {
                        flight.has_arrived = true;
                    }
                }
            }
            Message::ObtainOk { key, .. }
            | Message::Ack { key, .. }
            | Message::RevokeReq { key, .. } => {
                self.flights.retain(|flight| !same_key(&flight.key, &key));
            }
            _ => {}
        }
    }

    // Notes the object of the key that the entry makes. The kernel of the entry holds the key, or
    // what it was made from.
    fn note_object(&mut self, world: &World, entry: &Entry) -> Result<(), OutOfMemory> {
        let Some((parent, child)) = entry.grant else {
            return Ok(());
        };
        let Some(kernel) = world.kernels().get(entry.event.kernel as usize) else {
            return Ok(());
        };
        let given = match (kernel.held(child), kernel.held(parent)) {
            (Some(cap), _) => cap.object,
            (None, Some(cap)) if cap.key.kind == child.kind => cap.object,
            (None, _) => Object::Sess {
                service: parent,
                ident: child.vpe,
            },
        };
        self.objects.push(given)?;
        Ok(())
    }
}
