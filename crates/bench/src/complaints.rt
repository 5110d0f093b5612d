// Why a line is not obeyed: it is no command as it stands, or a call refused what it asks for.
use crate::showing::Shown;
use isa::Refusal;
use machine::StepRefusal;
use rehearsal::Obstacle;
use std::alloc::{AllocError, AllocFailed};
use std::fmt;
use std::num::{IntErrorKind, ParseIntError, TryFromIntError};
use std::str::Utf8Error;
use text::Refused;

#[derive(Clone, Copy)]
pub(crate) enum Complaint {
    NotText,
    UnknownCommand,
    UnknownName,
    MissingArgument,
    ExtraArgument,
    BadNumber,
    BadBytes,
    TooLarge,
    NoMemory,
    Refused(Refusal),
    RefusedRecord(Refused),
    RefusedStep(StepRefusal),
}

impl Complaint {
    // A call refused: this is an answer, and no error of the line.
    pub(crate) fn is_refusal(&self) -> bool {
        matches!(
            self,
            Complaint::Refused(_) | Complaint::RefusedRecord(_) | Complaint::RefusedStep(_)
        )
    }
}

impl fmt::Display for Complaint {
    fn fmt<W: fmt::Write>(&self, f: &mut fmt::Formatter<W>) -> fmt::Result {
        match *self {
            Complaint::NotText => write!(f, "not text"),
            Complaint::UnknownCommand => write!(f, "unknown command"),
            Complaint::UnknownName => write!(f, "unknown name"),
            Complaint::MissingArgument => write!(f, "missing argument"),
            Complaint::ExtraArgument => write!(f, "extra argument"),
            Complaint::BadNumber => write!(f, "bad number"),
            Complaint::BadBytes => write!(f, "bad bytes"),
            Complaint::TooLarge => write!(f, "number too large"),
            Complaint::NoMemory => write!(f, "out of memory"),
            Complaint::Refused(refusal) => write!(f, "refused {refusal}"),
            Complaint::RefusedRecord(refused) => write!(f, "refused {}", Shown(refused)),
            Complaint::RefusedStep(refused) => write!(f, "refused {}", Shown(refused)),
        }
    }
}

impl From<Refusal> for Complaint {
    fn from(refusal: Refusal) -> Complaint {
        Complaint::Refused(refusal)
    }
}

impl From<Refused> for Complaint {
    fn from(refused: Refused) -> Complaint {
        Complaint::RefusedRecord(refused)
    }
}

impl From<StepRefusal> for Complaint {
    fn from(refused: StepRefusal) -> Complaint {
        Complaint::RefusedStep(refused)
    }
}

impl From<Obstacle> for Complaint {
    fn from(obstacle: Obstacle) -> Complaint {
        match obstacle {
            Obstacle::Assembly(refused) => refused.into(),
            Obstacle::Loading(refusal) | Obstacle::TwinLoading(refusal) => refusal.into(),
        }
    }
}

impl From<Utf8Error> for Complaint {
    fn from(_error: Utf8Error) -> Complaint {
        Complaint::NotText
    }
}

impl From<ParseIntError> for Complaint {
    fn from(error: ParseIntError) -> Complaint {
        match error.kind() {
            IntErrorKind::PosOverflow => Complaint::TooLarge,
            _ => Complaint::BadNumber,
        }
    }
}

impl From<TryFromIntError> for Complaint {
    fn from(_error: TryFromIntError) -> Complaint {
        Complaint::TooLarge
    }
}

impl From<AllocError> for Complaint {
    fn from(_error: AllocError) -> Complaint {
        Complaint::NoMemory
    }
}

impl<T: Drop> From<AllocFailed<T>> for Complaint {
    fn from(_value: AllocFailed<T>) -> Complaint {
        Complaint::NoMemory
    }
}
