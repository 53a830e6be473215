// The attachments of each gateway.
ghost use Rattle.std.specs.Prelude.{◌≡◌, ◌++◌, ◌∷◌, [], Contains, IfOk, OnOk};
ghost use Rattle.transit_gateway.specs.Gateways.{AreGateways, AreShort, HasGatewaysOf, attachment_entries, attachment_entry, attachment_in, gateway_no};

use number_tables::{Entry, NumberTable, key_of};
use reference_check::{FirstNumbers, Network};
use std::alloc::{AllocError, Global};
use vpc_model::{AttNo, Attachment, VpcNo};

fn add(entries: &mut Vec<Entry<AttNo>>, key: u64, value: AttNo) -> Result<(), AllocError>
    ensures { OnOk result
        (entries.new.items ≡ entries.old.items ++ record { key = key; value = value } ∷ []) }
{
    entries.push(Entry { key, value })?;
    Ok(())
}

// The number of an attachment's gateway.
fn gateway_of(n: &Network, gateways: &FirstNumbers, attachment: &Attachment) -> u32
    requires gateways { AreGateways n.now gateways.now }
    requires listed { Contains n.now.attachments attachment.now }
    ensures { result ≡ gateway_no n.now attachment.now.gateway }
{
    // An accepted network has few attachments.
    let _ = n.description();
    gateways.number(&attachment.gateway) as u32
}

// Adds an attachment where its VPC is described: no subnet is in another one.
fn add_attachment(
    entries: &mut Vec<Entry<AttNo>>,
    n: &Network,
    gateways: &FirstNumbers,
    number: u32,
    attachment: &Attachment,
) -> Result<(), AllocError>
    requires gateways { AreGateways n.now gateways.now }
    requires listed { Contains n.now.attachments attachment.now }
    ensures { OnOk result
        (entries.new.items ≡ entries.old.items ++ attachment_entry n.now number attachment.now) }
{
    let gateway = gateway_of(n, gateways, attachment);
    match n.vpc(attachment.vpc.bytes()) {
        Some(vpc) => add(entries, key_of(gateway, vpc.0), AttNo(number)),
        None => Ok(()),
    }
}

fn attachment_entries(
    alloc: Global,
    n: &Network,
    gateways: &FirstNumbers,
) -> Result<Vec<Entry<AttNo>>, AllocError>
    requires { AreGateways n.now gateways.now }
    ensures { IfOk result (λ v. v.items ≡ attachment_entries n.now 0 n.now.attachments) }
{
    let mut entries = Vec::new(alloc);
    let attachments = n.description().attachments.as_slice();
    for (number, attachment) in attachments.iter().enumerate() {
        add_attachment(&mut entries, n, gateways, number as u32, attachment)?;
    }
    Ok(entries)
}

/// The gateways by their ids, and the attachments by their gateways and VPCs.
pub struct Gateways {
    pub numbers: FirstNumbers,
    pub attachments: NumberTable<AttNo>,
}

impl Drop for Gateways {
    fn drop(self) {
        let Gateways {
            numbers,
            attachments,
        } = self;
        drop(numbers);
        drop(attachments);
    }
}

impl Gateways {
    /// The gateways of a network. It takes time n log n in its attachments.
    pub fn of(alloc: Global, n: &Network) -> Result<Gateways, AllocError>
        ensures gateways { IfOk result (λ g. HasGatewaysOf n.now g.numbers g.attachments) }
        ensures short { IfOk result (λ g. AreShort g.numbers) }
    {
        let d = n.description();
        let numbers = FirstNumbers::of(alloc, d.attachments.as_slice())?;
        let entries = attachment_entries(alloc, n, &numbers)?;
        let attachments = NumberTable::of(entries)?;
        Ok(Gateways {
            numbers,
            attachments,
        })
    }

    /// The first attachment of a gateway to a VPC. It takes no memory.
    pub fn attachment(&self, gateway: &[u8], vpc: VpcNo) -> Option<AttNo>
        requires short { AreShort self.now.numbers }
        ensures { result ≡ attachment_in self.now.numbers self.now.attachments gateway.now vpc }
    {
        let gateway = self.numbers.get(gateway)? as u32;
        self.attachments.get(key_of(gateway, vpc.0))
    }
}
