// What is said of a packet.
use crate::{End, GroupNo, Place, Stop};
use vpc_base::{Dir, Header, Label};

/// A rule of a security group. Inbound and outbound rules are numbered apart, from 1.
#[derive(Clone, Copy, PartialEq, Eq)]
pub struct RuleRef {
    pub group: GroupNo,
    pub dir: Dir,
    pub number: u32,
}

/// By what a packet passed the security groups of an interface.
#[derive(Clone, Copy, PartialEq, Eq)]
pub enum By {
    /// No groups were asked, or they refused the packet.
    Nothing,
    /// The interface has no groups.
    NoGroups,
    /// The packet answers one that passed before.
    Tracked,
    Rule(RuleRef),
}

/// A place of a walk, with the header that came there.
#[derive(Clone, Copy, PartialEq, Eq)]
pub struct Hop {
    pub place: Place,
    pub header: Header,
    pub by: By,
}

impl Default for Hop {
    fn default() -> Self {
        Hop {
            place: Place::Internet,
            header: Header::default(),
            by: By::Nothing,
        }
    }
}

/// The two walks of a request that is asked about.
#[derive(Clone, Copy, PartialEq, Eq)]
pub enum Phase {
    Request,
    Reply,
}

/// How a walk ends.
#[derive(Clone, Copy)]
pub enum Outcome {
    Arrived(End, Header),
    Stopped(Stop),
}

/// Whether a request arrives and its reply returns.
#[derive(Clone, Copy)]
pub enum Verdict {
    Through,
    Stopped(Phase, Stop),
}

/// A packet that starts somewhere.
#[derive(Clone, Copy, PartialEq, Eq)]
pub struct Event {
    pub label: Label,
    pub start: End,
    pub header: Header,
}
