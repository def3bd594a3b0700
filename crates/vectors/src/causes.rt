// The rules' numbers for what the library answers.
use net::Reason;

// The number of a cause.
#[derive(Clone, Copy)]
pub struct Number(pub usize);

impl From<table::Cause> for Number {
    fn from(cause: table::Cause) -> Number {
        Number(cause.into())
    }
}

impl From<net::Cause> for Number {
    fn from(cause: net::Cause) -> Number {
        Number(cause.into())
    }
}

impl From<net::Refusal> for Number {
    fn from(refusal: net::Refusal) -> Number {
        match refusal {
            net::Refusal::Cause(cause) => cause.into(),
            net::Refusal::NoRoom => Number(10),
        }
    }
}

impl From<summary::Refusal> for Number {
    fn from(refusal: summary::Refusal) -> Number {
        match refusal {
            summary::Refusal::Cause(cause) => cause.into(),
            summary::Refusal::SummaryWrong => Number(20),
        }
    }
}

impl From<builder::Refusal> for Number {
    fn from(refusal: builder::Refusal) -> Number {
        match refusal {
            builder::Refusal::Table(cause) => cause.into(),
            builder::Refusal::NoRoom => Number(10),
        }
    }
}

impl From<process::Refusal> for Number {
    fn from(refusal: process::Refusal) -> Number {
        Number(refusal.into())
    }
}

impl From<readback::Refusal> for Number {
    fn from(refusal: readback::Refusal) -> Number {
        Number(refusal.into())
    }
}

impl From<rewriting::Refusal> for Number {
    fn from(refusal: rewriting::Refusal) -> Number {
        Number(refusal.into())
    }
}

// A cause's number, or 0, and what was counted or read back.
#[derive(Clone, Copy)]
pub struct Outcome(pub usize, pub usize);

impl<E: Into<Number>> From<Result<usize, E>> for Outcome {
    fn from(answer: Result<usize, E>) -> Outcome {
        match answer {
            Ok(value) => Outcome(0, value),
            Err(refusal) => Outcome(refusal.into().0, 0),
        }
    }
}

// What ended a run: a cause or 0, and the reason's number, 0 with a cause.
impl From<Reason> for Outcome {
    fn from(reason: Reason) -> Outcome {
        match reason {
            Reason::LimitReached => Outcome(0, 1),
            Reason::HistoryFull => Outcome(0, 2),
            Reason::NothingEnabled => Outcome(0, 3),
            Reason::Stopped(cause) => Outcome(cause.into(), 0),
        }
    }
}

// Whether a set has a lowest, 1 or 0, and which.
impl From<Option<(usize, u32)>> for Outcome {
    fn from(lowest: Option<(usize, u32)>) -> Outcome {
        match lowest {
            Some((word, bit)) => Outcome(1, word % 1125899906842624 * 64 + bit as usize),
            None => Outcome(0, 0),
        }
    }
}
