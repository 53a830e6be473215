// VPCs that transit gateways join.
ghost use Rattle.std.specs.Prelude.{◌≡◌, ◌<◌, ◌^◌, ◌++◌, IfOk, OnOk, length};
ghost use Rattle.security_groups.specs.Ids.{HasIds};
ghost use Rattle.security_groups.specs.Naming.{AreAttached};
ghost use Rattle.security_groups.specs.NumberKeys.{attached_keys};

use crate::attached::Attached;
use crate::ids::IdNumbers;
use crate::vpcs::push_key;
use number_tables::NumberSet;
use reference_check::Network;
use std::alloc::{AllocError, Global};
use vpc_model::{Attachment, GroupScope};

/// The transit gateways and the attachments that let rules name groups.
pub struct Letting {
    pub gateways: IdNumbers,
    pub attachments: IdNumbers,
}

impl Drop for Letting {
    fn drop(self) {
        let Letting {
            gateways,
            attachments,
        } = self;
        drop(gateways);
        drop(attachments);
    }
}

fn letting_in(alloc: Global, scope: &GroupScope) -> Result<Letting, AllocError>
    ensures few { IfOk result (λ l. length l.gateways < 2 ^ 32) }
    ensures gateways { IfOk result (λ l. HasIds scope.now.gateways l.gateways) }
    ensures attachments { IfOk result (λ l. HasIds scope.now.attachments l.attachments) }
{
    let gateways = IdNumbers::of(alloc, scope.gateways.as_slice())?;
    if !gateways.are_few() {
        return Err(AllocError);
    }
    let attachments = IdNumbers::of(alloc, scope.attachments.as_slice())?;
    Ok(Letting {
        gateways,
        attachments,
    })
}

// Adds the key of an attachment's VPC and transit gateway, where it lets rules name groups.
fn add_attachment(
    keys: &mut Vec<u64>,
    letting: &Letting,
    ids: &IdNumbers,
    attachment: &Attachment,
) -> Result<(), AllocError>
    requires ids { length ids.now < 2 ^ 32 }
    requires gateways { length letting.now.gateways < 2 ^ 32 }
    ensures { OnOk result (keys.new.items ≡ keys.old.items
        ++ attached_keys ids.now letting.now.attachments letting.now.gateways attachment.now) }
{
    if !letting.attachments.has(&attachment.id) {
        return Ok(());
    }
    let vpc = ids.number(&attachment.vpc);
    push_key(keys, vpc, letting.gateways.number(&attachment.gateway))
}

/// The numbered VPCs with the transit gateways to which they are attached, where rules may name groups over both.
pub fn attached_of(alloc: Global, n: &Network, ids: &IdNumbers) -> Result<Attached, AllocError>
    requires { length ids.now < 2 ^ 32 }
    ensures { IfOk result (AreAttached n.now ids.now) }
{
    let letting = letting_in(alloc, &n.description().scope)?;
    let mut keys = Vec::new(alloc);
    for attachment in n.description().attachments.as_slice() {
        add_attachment(&mut keys, &letting, ids, attachment)?;
    }
    let attached = Attached::of(alloc, NumberSet::of(keys))?;
    Ok(attached)
}
