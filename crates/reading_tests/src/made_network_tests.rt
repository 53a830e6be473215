// What `make` asks about and doesn't print: the rows of a made network, as they were asked for.
use crate::telling::Told;
use made_network::made_network;
use std::alloc::Global;
use std::test::Fail;
use vpc_model::{Description, Group, Interface, Permission, Reach, Route, RouteTable, Target};

// Words, each with a blank behind it.
fn tell_words(told: &mut Told, words: &[&[u8]]) {
    for word in words {
        told.put(word);
        told.put(b" ");
    }
}

fn tell_route(told: &mut Told, route: &Route) {
    match &route.reach {
        Reach::Block(block) => told.block(block),
        Reach::List(id) => told.put(id.bytes()),
    }
    match &route.target {
        Target::Local => told.put(b" local "),
        Target::Transit(id) => tell_words(told, &[b"", id.bytes()]),
        _ => told.put(b" elsewhere "),
    }
}

fn tell_table(told: &mut Told, table: &RouteTable) {
    tell_words(told, &[table.id.bytes(), table.vpc.bytes()]);
    for route in table.routes.as_slice() {
        tell_route(told, route);
    }
    told.put(b"\n");
}

fn tell_interface(told: &mut Told, eni: &Interface) {
    tell_words(told, &[eni.id.bytes(), eni.subnet.bytes()]);
    for (private, _) in eni.addresses.as_slice() {
        told.addr(*private);
    }
    for group in eni.groups.as_slice() {
        tell_words(told, &[b"", group.bytes()]);
    }
    told.put(b"\n");
}

fn tell_ports(told: &mut Told, rules: &[Permission]) {
    for rule in rules {
        if rule.q_to < 300 || rule.q_from == 0 {
            told.number(u128::from(rule.q_from));
            told.put(b"-");
            told.number(u128::from(rule.q_to));
            told.put(b" ");
        }
    }
}

// A group with how many rules it has inward, the first of them, which name ports below 300, and its outward one.
fn tell_group(told: &mut Told, group: &Group) {
    tell_words(told, &[group.id.bytes(), group.vpc.bytes()]);
    told.number(group.inward.as_slice().len() as u128);
    told.put(b" ");
    tell_ports(told, group.inward.as_slice());
    tell_ports(told, group.outward.as_slice());
    told.put(b"\n");
}

fn tell_all(told: &mut Told, d: &Description) {
    for eni in d.interfaces.as_slice() {
        tell_interface(told, eni);
    }
    for table in d.tables.as_slice() {
        tell_table(told, table);
    }
    for group in d.groups.as_slice() {
        tell_group(told, group);
    }
    for attachment in d.attachments.as_slice() {
        tell_words(told, &[attachment.id.bytes(), attachment.gateway.bytes()]);
    }
    told.number(d.vpcs.as_slice().len() as u128);
}

const ROWS: &str = "\
eni-1 subnet-1 10.1.1.10 sg-1 \n\
eni-2 subnet-2 10.2.1.10 sg-2 \n\
eni-3 subnet-3 10.3.1.10 sg-3 \n\
rtb-1 vpc-1 10.1.0.0/16 local 10.0.0.0/8 tgw-1 \n\
rtb-2 vpc-2 10.2.0.0/16 local 10.0.0.0/8 tgw-1 \n\
rtb-3 vpc-3 10.3.0.0/16 local 10.0.0.0/8 tgw-1 \n\
sg-1 vpc-1 100 1-1 101-101 201-201 0-65535 \n\
sg-2 vpc-2 100 2-2 102-102 202-202 0-65535 \n\
sg-3 vpc-3 100 3-3 103-103 203-203 0-65535 \n\
att-1 tgw-1 att-2 tgw-1 att-3 tgw-1 3";

fn text_of_three(alloc: Global) -> Result<String, Fail> {
    let network = made_network(alloc, 3)?;
    let mut told = Told::new(alloc);
    tell_all(&mut told, network.description());
    told.text()
}

#[test]
fn makes_three(rt: HostRuntime) -> Result<(), Fail> {
    let text = text_of_three(rt.alloc())?;
    assert_eq!(rt; text.as_str(), ROWS);
    Ok(())
}
