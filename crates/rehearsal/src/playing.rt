// The list on the first core, and the own steps alone on the twin.
ghost use Rattle.std.specs.Prelude.{◌≡◌, true};
ghost use Rattle.rehearsal.specs.Boards.{HoldBoth, Holds};
ghost use Rattle.machine.specs.Steps.{memory_of};
ghost use Rattle.machine.specs.Laws.{repeated};
ghost use Rattle.rehearsal.specs.Twins as twins;
ghost use Rattle.rehearsal.specs.Reports as report;
ghost use Rattle.rehearsal.specs.Stages as spec;

use crate::boards::Board;
use crate::pairs::Pair;
use crate::reports::Totals;
use histories::Action;
use machine::{Side, Step, StepRefusal, Tally};
use memory::Memory;

fn is_made_own(answer: Result<Step, StepRefusal>) -> bool
    ensures { result ≡ twins.made_own answer }
{
    matches!(answer, Ok(Step::Made(Side::Own)))
}

impl<M: Memory> Board<'_, M> {
    // So many single steps; the answer says whether each was an own step that succeeded.
    fn follow(&mut self, steps: u16) -> bool
        ensures all { result ≡ twins.all_own steps self.old.core.state
            (M.Memory.means self.old.memory.now).byte (M.Memory.means self.old.memory.now).mark }
        ensures state { self.new.core.state ≡ (repeated steps self.old.core.state
            (M.Memory.means self.old.memory.now).byte (M.Memory.means self.old.memory.now).mark).state }
        ensures memory { M.Memory.means self.new.memory.now ≡ memory_of (repeated steps self.old.core.state
            (M.Memory.means self.old.memory.now).byte (M.Memory.means self.old.memory.now).mark).bytes
            (M.Memory.means self.old.memory.now).mark }
        ensures holds { Holds M.Memory.loan self.old.memory self.new.memory }
    {
        let mut all = true;
        for _ in 0..steps {
            all &= is_made_own(self.step());
        }
        all
    }
}

impl Totals {
    fn added(self, tally: Tally) -> Totals
        requires { spec.HasRoom self }
        ensures { result ≡ spec.added self tally }
    {
        Totals {
            own: self.own + u128::from(tally.own),
            service: self.service + u128::from(tally.service),
            takings: self.takings + u128::from(tally.takings),
            wait: self.wait.max(tally.wait),
        }
    }
}

// What the list came to. The report is its public form, with what is compared afterwards.
#[derive(Clone, Copy)]
pub(crate) struct Played {
    pub(crate) totals: Totals,
    pub(crate) kept: bool,
}

impl<M: Memory, N: Memory> Pair<'_, '_, M, N> {
    // Plays the list on the first core, and after each action the own steps that succeeded on the twin.
    pub(crate) fn play(&mut self, actions: &[Action]) -> Played
        ensures stage { spec.rehearsed (M.Memory.means self.old.first.memory.now).mark (N.Memory.means self.old.twin.memory.now).mark
            (report.stage_of self.old.first.core.state (M.Memory.means self.old.first.memory.now) self.old.twin.core.state
            (N.Memory.means self.old.twin.memory.now) spec.nothing true)
            actions.now
            ≡ report.stage_of self.new.first.core.state (M.Memory.means self.new.first.memory.now) self.new.twin.core.state
            (N.Memory.means self.new.twin.memory.now) result.totals result.kept }
        ensures marks { (M.Memory.means self.new.first.memory.now).mark ≡ (M.Memory.means self.old.first.memory.now).mark }
        ensures twin_marks { (N.Memory.means self.new.twin.memory.now).mark ≡ (N.Memory.means self.old.twin.memory.now).mark }
        ensures holds { HoldBoth M.Memory.loan N.Memory.loan self.old self.new }
    {
        let mut totals = Totals::default();
        let mut kept = true;
        for action in actions {
            let tally = self.first.act(*action);
            kept &= self.twin.follow(tally.own);
            totals = totals.added(tally);
        }
        Played { totals, kept }
    }
}
