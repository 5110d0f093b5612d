// A list of actions on a newly loaded core.
ghost use Rattle.std.specs.Prelude.{◌≡◌};
ghost use Rattle.memory.specs.Meaning.{flat};
ghost use Rattle.machine.specs.Loads.{layout};
ghost use Rattle.xr16.specs.Actions.{actions_of};
ghost use Rattle.xr16.specs.Lent.{LentBytes};
ghost use Rattle.xr16.specs.Playing as spec;

use crate::acting::act;
use crate::actions::action_of;
use crate::answers::{Deed, Playing, Totals};
use crate::reporting::report;
use machine::{Core, Layout, ServiceRange};
use memory::{FlatMemory, Memory};

impl Totals {
    // One action more: counts add up modulo 2^64, and the longest wait stays.
    fn added(self, deed: Deed) -> Totals
        ensures { result ≡ spec.added self deed.tally deed.fault }
    {
        Totals {
            own: self.own.wrapping_add(u64::from(deed.tally.own)),
            service: self.service.wrapping_add(u64::from(deed.tally.service)),
            takings: self.takings.wrapping_add(u64::from(deed.tally.takings)),
            wait: self.wait.max(deed.tally.wait),
            last: deed.fault,
        }
    }
}

// Does the actions one after another; one or two bytes at the end are passed over.
fn play<M: Memory>(core: &mut Core, memory: &mut M, actions: &[u8]) -> Totals
    ensures exact { spec.Plays (actions_of actions.now) core.old.state (M.Memory.means memory.old)
        result core.new.state (M.Memory.means memory.new) }
    ensures lent { M.Memory.loan memory.new ≡ M.Memory.loan memory.old }
{
    let (chunks, _) = actions.as_chunks::<3>();
    let mut totals = Totals::default();
    for bytes in chunks {
        totals = totals.added(act(action_of(*bytes), core, memory));
    }
    totals
}

// Loads an image into a new core and, unless the load is refused, does the actions.
fn load_and_play<M: Memory>(memory: &mut M, image: &[u8], layout: Layout, actions: &[u8]) -> Playing
    ensures answer { result ≡ (spec.playing layout image.now (M.Memory.means memory.old)
        (actions_of actions.now)).answer }
    ensures memory { M.Memory.means memory.new ≡ (spec.playing layout image.now
        (M.Memory.means memory.old) (actions_of actions.now)).memory }
    ensures lent { M.Memory.loan memory.new ≡ M.Memory.loan memory.old }
{
    let mut core = Core::new();
    let loading = core.load(memory, image, layout);
    let totals = match loading {
        Ok(()) => play(&mut core, memory, actions),
        Err(_) => Totals::default(),
    };
    report(&core, loading, totals)
}

// Loads an image into a new core over flat memory on a lent buffer, and does a list of actions.
#[unsafe(no_mangle)]
pub extern "C" fn xr16_play(
    memory: &mut [u8],
    image: &[u8],
    text: u16,
    lo: u16,
    hi: u16,
    actions: &[u8],
) -> Playing
    ensures answer { result ≡ (spec.playing (layout text lo hi) image.now (flat memory.old)
        (actions_of actions.now)).answer }
    ensures memory { LentBytes (spec.playing (layout text lo hi) image.now (flat memory.old)
        (actions_of actions.now)).memory.byte memory.old memory.new }
{
    let mut flat = FlatMemory::new(memory);
    let layout = Layout {
        text,
        service: ServiceRange { low: lo, high: hi },
    };
    load_and_play(&mut flat, image, layout, actions)
}
