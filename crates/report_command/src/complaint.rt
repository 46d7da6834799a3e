// Why there is no report, and what to give instead: one line.
use record::Refusal;
use std::fmt;

#[derive(Clone, Copy)]
pub(crate) enum Complaint {
    NoDeadlines,
    NotCycles,
    NotDeadline { argument: usize },
    TooManyDeadlines { deadlines: usize },
    Misfit { deadlines: usize, traces: u32 },
    Refused(Refusal),
}

impl From<Refusal> for Complaint {
    fn from(refusal: Refusal) -> Complaint {
        Complaint::Refused(refusal)
    }
}

// Beside these a report is declined for a broken record alone.
fn reason(refusal: Refusal) -> &'static str {
    match refusal {
        Refusal::TooLong =>
            "the file is longer than 65,536 bytes; split the traces over several files",
        Refusal::TooShort =>
            "the file is shorter than two bytes; it is empty or was cut, so write it again",
        Refusal::TooManyTraces => {
            "there are more than 16 traces; split them over several files, or, if this is text, make a job file of it with tools/assemble"
        }
        Refusal::CutTable => "the file ends within its table; it was cut, so write it again",
        Refusal::LargeCount =>
            "a trace has more than 4,096 instructions; give the task as several traces",
        Refusal::WrongOffset => {
            "an offset is not where its body starts; offsets follow from the counts, and the first is 2 + 6 times the number of traces"
        }
        Refusal::WrongEnd => {
            "the file does not end with its last body; it was cut, or has bytes after its last body"
        }
        Refusal::LongHit => {
            "a data hit takes more than 15 cycles, or no fewer than a load's or store's data latency; give fewer hit cycles, or the data latencies of the core whose hits take so long"
        }
        _ => "a record breaks its rules; compare it with the table of the record in docs/FORMAT.md",
    }
}

impl fmt::Display for Complaint {
    fn fmt<W: fmt::Write>(&self, f: &mut fmt::Formatter<W>) -> fmt::Result {
        match *self {
            Complaint::NoDeadlines => f.write_str(
                "usage: report [--hit-cycles N] DEADLINE... <FILE: one deadline for all traces of the job file, or one for each, in cycles; a data hit takes N cycles, 0 where the option is not given",
            ),
            Complaint::NotCycles => f.write_str(
                "argument 2 is not a number of cycles: after --hit-cycles comes a whole number from 0 to 15",
            ),
            Complaint::NotDeadline { argument } => write!(
                f,
                "argument {argument} is not a deadline: a deadline is a whole number from 0 to 4294967295"
            ),
            Complaint::TooManyDeadlines { deadlines } => {
                write!(f, "{deadlines} deadlines: a job file has at most 16 traces")
            }
            Complaint::Misfit { deadlines, traces } => {
                let noun = if traces == 1 { "trace" } else { "traces" };
                write!(
                    f,
                    "{deadlines} deadlines for {traces} {noun}: give one for each trace, or one for all"
                )
            }
            Complaint::Refused(refusal) => {
                let number = refusal.number();
                write!(f, "refused {number}: {}", reason(refusal))
            }
        }
    }
}
