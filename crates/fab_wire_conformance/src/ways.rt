//! The ways in which a scenario is played.

/// How the requests of a scenario are served.
#[derive(Clone, Copy)]
pub enum Way {
    /// One by one, and each is read whole.
    Whole,
    /// One by one, and a read gets one byte.
    ByteByByte,
    /// Before each request is served it comes several times, and another read of one byte fails each
    /// time: nothing comes of it.
    FailingReads,
    /// One by one, and each answer breaks off: the desk has acted all the same, as the answers behind
    /// it show.
    BrokenAnswers,
    /// One by one, and the writer takes none of an answer's bytes.
    UntakenAnswers,
    /// All as one list.
    List,
    /// One by one, by a desk whose book asks about every pair of ports.
    EveryPair,
    /// One by one, each by a desk that is opened anew over the tables: they have what was answered.
    OpenedAnew,
}

impl Way {
    /// Its words.
    pub fn words(self) -> &'static str {
        match self {
            Way::Whole => "read whole",
            Way::ByteByByte => "read byte by byte",
            Way::FailingReads => "read behind reads that fail",
            Way::BrokenAnswers => "answered until a write fails",
            Way::UntakenAnswers => "answered to who takes no byte",
            Way::List => "served in a list",
            Way::EveryPair => "asked about every pair",
            Way::OpenedAnew => "asked a desk that is opened anew",
        }
    }
}

/// Each way, in the order in which a file is played.
pub const WAYS: &[Way] = &[
    Way::Whole,
    Way::ByteByByte,
    Way::FailingReads,
    Way::BrokenAnswers,
    Way::UntakenAnswers,
    Way::List,
    Way::EveryPair,
    Way::OpenedAnew,
];
