// The rehearsal of a listing.
ghost use Rattle.std.specs.Prelude.{◌≡◌, length, IfOk, OnOk};
ghost use Rattle.rehearsal.specs.Boards.{HoldBoth};
ghost use Rattle.machine.specs.Steps.{Steps};
ghost use Rattle.rehearsal.specs.Laws.{Promises};
ghost use Rattle.rehearsal.specs.Reports as spec;

use crate::boards::Board;
use crate::pairs::Pair;
use crate::playing::Played;
use crate::reports::{Obstacle, Report};
use assembler::assemble;
use histories::Action;
use machine::{Layout, ServiceRange};
use memory::Memory;
use text::Answers;

impl<M: Memory, N: Memory> Pair<'_, '_, M, N> {
    // Loads an image into both cores.
    fn load(&mut self, image: &[u8], layout: Layout) -> Result<(), Obstacle>
        ensures outcome { spec.BothLoaded layout image.now
            (M.Memory.means self.old.first.memory.now) (N.Memory.means self.old.twin.memory.now) result
            self.new.first.core.state (M.Memory.means self.new.first.memory.now)
            self.new.twin.core.state (N.Memory.means self.new.twin.memory.now) }
        ensures holds { HoldBoth M.Memory.loan N.Memory.loan self.old self.new }
    {
        self.first.load(image, layout).map_err(Obstacle::Loading)?;
        self.twin.load(image, layout).map_err(Obstacle::TwinLoading)
    }

    // Assembles the listing and loads its image into both cores.
    fn prepare(
        &mut self,
        listing: &[u8],
        image: &mut [u8],
        range: ServiceRange,
    ) -> Result<Answers, Obstacle>
        ensures image { image.new ≡ spec.buffer_after listing.now image.old }
        ensures outcome { spec.Prepared listing.now (length image.old) range
            (M.Memory.means self.old.first.memory.now) (N.Memory.means self.old.twin.memory.now) result
            self.new.first.core.state (M.Memory.means self.new.first.memory.now)
            self.new.twin.core.state (N.Memory.means self.new.twin.memory.now) }
        ensures facts { OnOk result (spec.Accepted listing.now) }
        ensures holds { HoldBoth M.Memory.loan N.Memory.loan self.old self.new }
    {
        let answers = assemble(listing, image).map_err(Obstacle::Assembly)?;
        let layout = Layout {
            text: answers.text as u16,
            service: range,
        };
        self.load(&image[..answers.image], layout)?;
        Ok(answers)
    }

    // Compares the two cores, and makes one step more in each.
    fn finish(&mut self, played: Played, limit: usize) -> Report
        ensures totals { result.totals ≡ played.totals }
        ensures kept { result.kept ≡ played.kept }
        ensures limit { result.limit ≡ limit }
        ensures program { spec.Compared (spec.standing self.old.first.core.state (M.Memory.means self.old.first.memory.now))
            (spec.standing self.old.twin.core.state (N.Memory.means self.old.twin.memory.now)) result.program }
        ensures next { Steps self.old.first.core.state (M.Memory.means self.old.first.memory.now)
            result.next self.new.first.core.state (M.Memory.means self.new.first.memory.now) }
        ensures twin_next { Steps self.old.twin.core.state (N.Memory.means self.old.twin.memory.now)
            result.twin_next self.new.twin.core.state (N.Memory.means self.new.twin.memory.now) }
        ensures holds { HoldBoth M.Memory.loan N.Memory.loan self.old self.new }
    {
        Report {
            totals: played.totals,
            kept: played.kept,
            limit,
            program: self.compare(),
            next: self.first.step(),
            twin_next: self.twin.step(),
        }
    }
}

// Assembles a listing, loads its image into two cores, plays a list of actions on the first and its own steps alone on the
// twin, compares them, and makes one step more in each.
pub fn rehearse<M: Memory, N: Memory>(
    listing: &[u8],
    image: &mut [u8],
    range: ServiceRange,
    memory: &mut M,
    twin_memory: &mut N,
    actions: &[Action],
) -> Result<Report, Obstacle>
    ensures image { image.new ≡ spec.buffer_after listing.now image.old }
    ensures outcome { spec.Outcome listing.now (length image.old) range
        (M.Memory.means memory.old) (N.Memory.means twin_memory.old)
        actions.now result (M.Memory.means memory.new) (N.Memory.means twin_memory.new) }
    ensures promises { IfOk result (λ report. Promises listing.now range (M.Memory.means memory.old)
        (N.Memory.means twin_memory.old) actions.now report) }
    ensures lent { M.Memory.loan memory.new ≡ M.Memory.loan memory.old }
    ensures twin_lent { N.Memory.loan twin_memory.new ≡ N.Memory.loan twin_memory.old }
{
    let first = Board::new(memory);
    let twin = Board::new(twin_memory);
    let mut pair = Pair { first, twin };
    let answers = pair.prepare(listing, image, range)?;
    let played = pair.play(actions);
    Ok(pair.finish(played, answers.run + 1))
}
