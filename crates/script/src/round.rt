ghost use Rattle.std.specs.Prelude.{◌≡◌, ◌<◌, length, IfOk, Ok, OnErr};
ghost use Rattle.list.specs.Held.{KeepsRest, list_items, list_room};
ghost use Rattle.print.specs.Overwrite.{write_memory};
ghost use Rattle.script.specs.Schedule.{Gives, IsSchedule, told};
ghost use Rattle.script.specs.Written.{text_of};

use crate::{Kind, Schedule, read_schedule, write_schedule};
use book::Event;
use list::{List, Memory};
use text::Fault;

// Writes a schedule into the memory and reads it from there. Within the limits it comes back as it was. The outer result says
// whether the text had room, the inner one what reading it gave.
pub fn round_trip(
    schedule: &Schedule,
    memory: &mut [u8],
    events: &mut List<Event>,
) -> Result<Result<Kind, Fault>, Memory>
    ensures value { IfOk result (λ x. Gives (list_room events.old) (text_of schedule.now) (told x (list_items events.new))) }
    ensures law { IfOk result (λ x. IsSchedule (list_room events.old) (text_of schedule.now) schedule.now.kind schedule.now.events.now → (x ≡ Ok schedule.now.kind) × (list_items events.new ≡ schedule.now.events.now)) }
    ensures memory { memory.new ≡ write_memory (text_of schedule.now) memory.old }
    ensures refused { OnErr result ((length memory.old < length (text_of schedule.now)) × (events.new ≡ events.old)) }
    ensures rest { KeepsRest events.old events.new }
{
    let len = write_schedule(schedule, memory)?;
    Ok(read_schedule(&memory[0..len], events))
}
