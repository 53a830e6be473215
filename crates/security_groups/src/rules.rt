// Rules with what they name resolved.
use address_sets::AddressSet;
use vpc_base::OwnList;

/// A rule of a security group, with what it names as sets and numbers. `q_from` and `q_to` are as in a
/// described permission.
#[derive(Drop)]
pub struct Rule {
    /// Its number among the rules of its group and direction, from 1.
    pub number: u32,
    /// None for all protocols.
    pub proto: Option<u8>,
    pub q_from: u16,
    pub q_to: u16,
    pub blocks: AddressSet,
    /// Prefix lists by their numbers in the description, each once.
    pub lists: OwnList<u32>,
    /// The groups that count, by their numbers in the description, each once.
    pub groups: OwnList<u32>,
}
