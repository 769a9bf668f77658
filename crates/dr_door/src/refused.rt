use thiserror::Error;

/// Why a word that came was refused.
#[derive(Clone, Copy, Debug, PartialEq, Eq, Error)]
pub enum Refused {
    #[error("the table has no such place")]
    Place,
    #[error("the place is in another member's copy")]
    Copy,
    #[error("the place is in the member's own row")]
    Row,
    #[error("the word is not in form for its column")]
    Form,
    /// Among doors of one group this never comes of a packet that was sent to this member: something false has come
    /// before, which may keep out all later words of its place. A host had better stop than count it.
    #[error("the word has neither grown from the one that stands there nor is it an older one")]
    Growth,
}

/// Why a letter was not taken.
#[derive(Clone, Copy, Debug, PartialEq, Eq, Error)]
pub enum NotTaken {
    #[error("another deed is due")]
    NotDue,
    /// Among doors of one group this never comes of a letter that was given for this member.
    #[error("the letter doesn't begin with the member's history, has an entry that is not valid, or doesn't fit it")]
    Unfit,
}

/// Another deed is due, or none.
#[derive(Clone, Copy, Debug, PartialEq, Eq, Error)]
#[error("another deed is due")]
pub struct NotDue;
