// What holds of every list of actions on a newly loaded core, each beside the question that it turns on.
ghost use Rattle.std.specs.Prelude.{◌≡◌, ◌+◌, not};
ghost use Rattle.histories.specs.Texts as text;
ghost use Rattle.histories.specs.Laws as law;

use isa::{ImmediateFunction, Instruction, read};

// Whether requests leave no mark with this word in the program text: it reads as neither srxi nor slxi.
pub fn leaves_no_mark(word: u16) -> bool
    ensures exact { result ≡ not (text.reads_extended word) }
    ensures law { law.RequestsLeaveNoMark }
{
    !read(word).is_ok_and(is_extended_shift)
}

fn is_extended_shift(instruction: Instruction) -> bool
    ensures { result ≡ text.extended_shift instruction }
{
    matches!(
        instruction,
        Instruction::Immediate {
            function: ImmediateFunction::Srxi | ImmediateFunction::Slxi,
            ..
        }
    )
}

// The most that a taken request can have waited in a text with this longest interlocked run.
pub fn wait_limit(longest: u16) -> u32
    ensures exact { result ≡ longest + 1 }
    ensures limits { law.Limits longest result }
    ensures law { law.WaitsAreBounded }
{
    u32::from(longest) + 1
}

// Whether an own step may be refused for a hazard directly after this word: it reads as jal or call.
#[tactic(auto, using(crate::proofs::Hazards::hazards_follow_jumps))]
pub fn hazard_may_follow(word: u16) -> bool
    ensures exact { result ≡ text.reads_jump word }
    ensures law { law.HazardsFollowJumps }
{
    read(word).is_ok_and(is_jump)
}

fn is_jump(instruction: Instruction) -> bool
    ensures { result ≡ text.jump instruction }
{
    matches!(
        instruction,
        Instruction::Jal { .. } | Instruction::Call { .. }
    )
}
