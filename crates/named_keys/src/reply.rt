// What a line about a name is answered.
use record_model::{NameAnswer, Reply};

/// What a line about a name is answered.
#[derive(Debug, Drop)]
pub enum NameReply {
    /// It was carried out to its end.
    Answer(NameAnswer),
    /// One of its calls was refused, by this reply, or its value is too long. Records that it read stay read.
    Refused(Reply),
}
