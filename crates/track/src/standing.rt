// The three standings of a track. Each is moved on by the calls that it allows; a proposal and an emptied one can't be dropped.
use crate::account::Account;
use contractor::Fault;

// At rest: no proposal is open.
#[derive(Drop)]
pub struct Rest {
    pub(crate) account: Account,
}

// A proposal is open. It has to be committed or withdrawn.
pub struct Proposal {
    pub(crate) account: Account,
}

// A proposal holds no trajectory of what was used on it. It has to be closed.
pub struct Emptied {
    pub(crate) account: Account,
    pub(crate) fault: Fault,
}
