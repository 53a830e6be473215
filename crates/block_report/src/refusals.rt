// Prints why a bundle describes no network.
ghost use Rattle.std.specs.Prelude.{◌≡◌, ◌++◌, OnOk};
ghost use Rattle.block_report.specs.Refusals.{cause_text, list_text, refusal_text};
ghost use Rattle.block_report.specs.Words.{word};
ghost use Rattle.vpc_model.specs.declared.refusals.Refusal.TheVariants as refusals;

use crate::words::{put, put_addr_word, put_word};
use bundle::BundleRefusal;
use vpc_base::NoMemory;
use vpc_model::{ListName, Refusal};

// A list's name, as in a bundle.
fn put_list(out: &mut Vec<u8>, name: ListName) -> Result<(), NoMemory>
    ensures { OnOk result (out.new.items ≡ out.old.items ++ list_text name) }
{
    match name {
        ListName::Vpcs => put(out, b"Vpcs"),
        ListName::Subnets => put(out, b"Subnets"),
        ListName::NetworkInterfaces => put(out, b"NetworkInterfaces"),
        ListName::RouteTables => put(out, b"RouteTables"),
        ListName::PrefixLists => put(out, b"PrefixLists"),
        ListName::NetworkAcls => put(out, b"NetworkAcls"),
        ListName::SecurityGroups => put(out, b"SecurityGroups"),
        ListName::InternetGateways => put(out, b"InternetGateways"),
        ListName::NatGateways => put(out, b"NatGateways"),
        ListName::VpcPeeringConnections => put(out, b"VpcPeeringConnections"),
        ListName::TransitGatewayVpcAttachments => put(out, b"TransitGatewayVpcAttachments"),
        ListName::TransitGatewayAttachments => put(out, b"TransitGatewayAttachments"),
        ListName::TransitGatewayRoutes => put(out, b"TransitGatewayRoutes"),
        ListName::Appliances => put(out, b"Appliances"),
        ListName::VpnGateways => put(out, b"VpnGateways"),
        ListName::VpcEndpoints => put(out, b"VpcEndpoints"),
    }
}

// A name with one argument.
fn put_named(out: &mut Vec<u8>, name: &[u8], argument: &[u8]) -> Result<(), NoMemory>
    ensures { OnOk result (out.new.items ≡ out.old.items ++ (name.now ++ word argument.now)) }
{
    put(out, name)?;
    put_word(out, argument)
}

fn put_missing(out: &mut Vec<u8>, from: &[u8], to: &[u8]) -> Result<(), NoMemory>
    ensures { let cause = refusals.MissingReference from.now to.now in
        OnOk result (out.new.items ≡ out.old.items ++ refusal_text cause) }
{
    put_named(out, b"MissingReference", from)?;
    put_word(out, to)
}

fn put_duplicate_address(out: &mut Vec<u8>, vpc: &[u8], address: u32) -> Result<(), NoMemory>
    ensures { let cause = refusals.DuplicateAddress vpc.now address in
        OnOk result (out.new.items ≡ out.old.items ++ refusal_text cause) }
{
    put_named(out, b"DuplicateAddress", vpc)?;
    put_addr_word(out, address)
}

fn put_duplicate_public(out: &mut Vec<u8>, address: u32) -> Result<(), NoMemory>
    ensures { let cause = refusals.DuplicatePublic address in
        OnOk result (out.new.items ≡ out.old.items ++ refusal_text cause) }
{
    put(out, b"DuplicatePublic")?;
    put_addr_word(out, address)
}

fn put_too_many(out: &mut Vec<u8>, name: ListName) -> Result<(), NoMemory>
    ensures { OnOk result (out.new.items ≡ out.old.items ++ refusal_text (refusals.TooManyRows name)) }
{
    put(out, b"TooManyRows ")?;
    put_list(out, name)
}

// A refusal of the rows, with its arguments.
fn put_refusal(out: &mut Vec<u8>, cause: &Refusal) -> Result<(), NoMemory>
    ensures { OnOk result (out.new.items ≡ out.old.items ++ refusal_text cause.now) }
{
    match cause {
        Refusal::DuplicateId(id) => put_named(out, b"DuplicateId", id.bytes()),
        Refusal::MissingReference(from, to) => put_missing(out, from.bytes(), to.bytes()),
        Refusal::DuplicateAddress(vpc, address) => {
            put_duplicate_address(out, vpc.bytes(), *address)
        }
        Refusal::DuplicatePublic(address) => put_duplicate_public(out, *address),
        Refusal::NoRouteTable(id) => put_named(out, b"NoRouteTable", id.bytes()),
        Refusal::NoAcl(id) => put_named(out, b"NoAcl", id.bytes()),
        Refusal::TwoInternetGateways(id) => put_named(out, b"TwoInternetGateways", id.bytes()),
        Refusal::TwoTables(id) => put_named(out, b"TwoTables", id.bytes()),
        Refusal::TwoAcls(id) => put_named(out, b"TwoAcls", id.bytes()),
        Refusal::TooManyRows(name) => put_too_many(out, *name),
        Refusal::Memory => put(out, b"want of memory"),
    }
}

/// Appends the first cause against a bundle, with its arguments.
pub fn put_cause(out: &mut Vec<u8>, cause: &BundleRefusal) -> Result<(), NoMemory>
    ensures { OnOk result (out.new.items ≡ out.old.items ++ cause_text cause.now) }
{
    match cause {
        BundleRefusal::NotJson => put(out, b"NotJson"),
        BundleRefusal::WrongShape(path) => put_named(out, b"WrongShape", path.bytes()),
        BundleRefusal::BadText(path) => put_named(out, b"BadText", path.bytes()),
        BundleRefusal::Rows(cause) => put_refusal(out, cause),
        BundleRefusal::Memory => put(out, b"want of memory"),
    }
}
