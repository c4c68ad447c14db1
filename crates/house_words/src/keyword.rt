//! The words with which lines begin, and the texts of forged envelopes.

#[derive(Clone, Copy)]
pub enum DeclarationKeyword {
    Party,
    Seat,
    Set,
    Ledger,
    Open,
    Deal,
    Step,
}

#[derive(Clone, Copy)]
pub enum BuildingKeyword {
    Forge,
    Flip,
    Log,
    Record,
    Take,
    Claim,
    Cut,
    Link,
    LinkBy,
    By,
    Term,
    StatusClaim,
}

#[derive(Clone, Copy)]
pub enum TextKeyword {
    Register,
    Pay,
    Escrow,
    Transfer,
    Start,
    Vote,
    Prefix,
    Handover,
    Status,
    Bytes,
}

#[derive(Clone, Copy)]
pub enum EventKeyword {
    Deliver,
    Show,
    Ask,
    Join,
    Next,
    Again,
    Start,
    Commit,
    Abort,
    Tick,
    Hear,
    Enter,
    Prefix,
    Handover,
    Install,
    Fail,
    Stop,
    Reopen,
    Status,
}
