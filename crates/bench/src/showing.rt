// How the values of the crates below are printed.
use isa::Instruction;
use machine::{Run, Side, Step, StepRefusal};
use rehearsal::{Program, Report, same_answer};
use std::fmt;
use text::{Answers, Refused};

// A value of another crate in the console's own format, which is why the types themselves have no such Display.
#[derive(Clone, Copy)]
pub(crate) struct Shown<T>(pub(crate) T);

// The name of an instruction, and its fields in the order of its word.
impl fmt::Display for Shown<Instruction> {
    fn fmt<W: fmt::Write>(&self, f: &mut fmt::Formatter<W>) -> fmt::Result {
        let name = self.0.mnemonic();
        match self.0 {
            Instruction::Add { rd, ra, rb } | Instruction::Sub { rd, ra, rb } => {
                write!(f, "{name} {rd} {ra} {rb}")
            }
            Instruction::Addi { rd, ra, imm }
            | Instruction::Lw { rd, ra, imm }
            | Instruction::Lb { rd, ra, imm }
            | Instruction::Sw { rd, ra, imm }
            | Instruction::Sb { rd, ra, imm }
            | Instruction::Jal { rd, ra, imm } => write!(f, "{name} {rd} {ra} {imm}"),
            Instruction::Register { rd, rb, .. } => write!(f, "{name} {rd} {rb}"),
            Instruction::Immediate { rd, imm, .. } => write!(f, "{name} {rd} {imm}"),
            Instruction::Branch { displacement, .. } => write!(f, "{name} {displacement}"),
            Instruction::Call { imm12 } | Instruction::Imm { imm12 } => {
                write!(f, "{name} {imm12}")
            }
        }
    }
}

impl fmt::Display for Shown<Refused> {
    fn fmt<W: fmt::Write>(&self, f: &mut fmt::Formatter<W>) -> fmt::Result {
        let Refused { refusal, index } = self.0;
        write!(f, "{refusal} record {index}")
    }
}

impl fmt::Display for Shown<Side> {
    fn fmt<W: fmt::Write>(&self, f: &mut fmt::Formatter<W>) -> fmt::Result {
        f.write_str(match self.0 {
            Side::Own => "own",
            Side::Service => "service",
        })
    }
}

impl fmt::Display for Shown<StepRefusal> {
    fn fmt<W: fmt::Write>(&self, f: &mut fmt::Formatter<W>) -> fmt::Result {
        let StepRefusal {
            refusal,
            address,
            side,
        } = self.0;
        write!(f, "{refusal} at {address:04X} {}", Shown(side))
    }
}

impl fmt::Display for Shown<Step> {
    fn fmt<W: fmt::Write>(&self, f: &mut fmt::Formatter<W>) -> fmt::Result {
        match self.0 {
            Step::Taken(wait) => write!(f, "taken {wait}"),
            Step::Made(side) => write!(f, "{}", Shown(side)),
        }
    }
}

impl fmt::Display for Shown<Run> {
    fn fmt<W: fmt::Write>(&self, f: &mut fmt::Formatter<W>) -> fmt::Result {
        let tally = self.0.tally;
        write!(
            f,
            "own {} service {} taken {} wait {} ",
            tally.own, tally.service, tally.takings, tally.wait
        )?;
        match self.0.end {
            Ok(()) => write!(f, "spent"),
            Err(refused) => write!(f, "refused {}", Shown(refused)),
        }
    }
}

impl fmt::Display for Shown<Answers> {
    fn fmt<W: fmt::Write>(&self, f: &mut fmt::Formatter<W>) -> fmt::Result {
        let Answers { text, image, run } = self.0;
        write!(f, "text {text} image {image} run {run}")
    }
}

// How the twin stands: its program state the same, different, or not compared while a service is open.
fn twin_name(report: Report) -> &'static str {
    match (report.kept, report.program) {
        (false, _) => "stopped",
        (true, Program::Same) => "same",
        (true, Program::Different) => "different",
        (true, Program::Serving) => "serving",
    }
}

// How the one step more answered: a taking or a service step of the first core is beside the comparison.
fn next_name(report: Report) -> &'static str {
    match report.next {
        Ok(Step::Taken(_)) => "taken",
        Ok(Step::Made(Side::Service)) => "service",
        next if same_answer(next, report.twin_next) => "alike",
        _ => "different",
    }
}

impl fmt::Display for Shown<Report> {
    fn fmt<W: fmt::Write>(&self, f: &mut fmt::Formatter<W>) -> fmt::Result {
        let Report { totals, limit, .. } = self.0;
        write!(
            f,
            "own {} service {} taken {} wait {} limit {limit} twin {} next {}",
            totals.own,
            totals.service,
            totals.takings,
            totals.wait,
            twin_name(self.0),
            next_name(self.0)
        )
    }
}

// The sixteen registers, a blank before each.
impl fmt::Display for Shown<[u16; 16]> {
    fn fmt<W: fmt::Write>(&self, f: &mut fmt::Formatter<W>) -> fmt::Result {
        for value in self.0 {
            write!(f, " {value:04X}")?;
        }
        Ok(())
    }
}

// An image, sixteen bytes to a row, as words of two; an odd last byte stands alone.
impl fmt::Display for Shown<&[u8]> {
    fn fmt<W: fmt::Write>(&self, f: &mut fmt::Formatter<W>) -> fmt::Result {
        for (row, bytes) in self.0.chunks(16).enumerate() {
            if row > 0 {
                writeln!(f)?;
            }
            write!(f, "{:04X}:", row.saturating_mul(16))?;
            for word in bytes.chunks(2) {
                write!(f, " ")?;
                for byte in word {
                    write!(f, "{byte:02X}")?;
                }
            }
        }
        Ok(())
    }
}
