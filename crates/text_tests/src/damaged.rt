// Whatever byte of a report is another one, it is no report, or one that prints as the damaged text.
use block_report::{
    phase_text, put, put_addr_word, put_box_word, put_end, put_number_line, put_number_word,
    put_stop_words, put_word,
};
use box_images::Side;
use bundle::read_bundle;
use header_boxes::Row;
use ordered_cover::Node;
use reference_check::Network;
use report_reader::{Report, Shape, read_report};
use std::alloc::Global;
use std::process::Abort;
use std::test::Fail;
use vpc_base::NoMemory;
use vpc_model::StopText;

const BUNDLE: &str = r#"{
    "Vpcs": [{"VpcId": "vpc-1", "CidrBlock": "10.0.0.0/16"}],
    "Subnets": [{"SubnetId": "subnet-a", "VpcId": "vpc-1", "AvailabilityZone": "zone-a"}],
    "RouteTables": [{"RouteTableId": "rtb-1", "VpcId": "vpc-1", "Associations": [{"Main": true}], "Routes": []}],
    "NetworkAcls": [{"NetworkAclId": "acl-1", "Associations": [{"SubnetId": "subnet-a"}], "Entries": []}],
    "NetworkInterfaces": [
        {"NetworkInterfaceId": "eni-a", "SubnetId": "subnet-a"},
        {"NetworkInterfaceId": "eni-b", "SubnetId": "subnet-a"}
    ],
    "VpnGateways": [{"VpnGatewayId": "vgw-1"}]
}"#;

const TO_HOST: &[u8] = b"query from eni-a to eni-b";

const TO_NETWORK: &[u8] = b"query from eni-a to vgw-1";

const TWO_ROWS: &[u8] = b"vpc-report 1
query from eni-a to eni-b
box 6-6 10.0.1.10-10.0.1.10 10.0.2.20-10.0.2.20 0-32767 443-443
row 1 reply AclOut acl-b 32767 6-6 10.0.1.10-10.0.1.10 10.0.2.20-10.0.2.20 0-1023 443-443
row 2 reply AclOut acl-b 32767 6-6 10.0.1.10-10.0.1.10 10.0.2.20-10.0.2.20 1024-32767 443-443
end 2
";

const THREE_LEAVES: &[u8] = b"vpc-report 2
query from eni-a to eni-b
box 6-6 10.0.1.0-10.0.1.255 10.0.2.20-10.0.2.20 0-32767 443-443
cut src 10.0.1.16
cut p 1024
leaf reply AclOut acl-b 32767
leaf request GroupsIn eni-b -
leaf request SourceCheck eni-a -
end 3
";

const OUTSIDE: &[u8] = b"vpc-report 1
query from eni-a to vgw-1
box 6-6 10.0.1.10-10.0.1.10 172.20.0.0-172.20.255.255 0-65535 443-443
row 1 request FarDetached vgw-1 - 6-6 10.0.1.10-10.0.1.10 172.20.0.0-172.20.255.255 0-65535 443-443
end 1
";

fn put_told(out: &mut Vec<u8>, told: &StopText) -> Result<(), NoMemory> {
    put_word(out, phase_text(told.phase))?;
    put(out, b" ")?;
    put_stop_words(out, told.name, told.id.bytes(), told.rule.bytes())
}

fn put_row(out: &mut Vec<u8>, number: u128, row: &Row<StopText>) -> Result<(), NoMemory> {
    put(out, b"row")?;
    put_number_word(out, number)?;
    put_told(out, &row.word)?;
    put_box_word(out, &row.part)?;
    put_end(out)
}

fn put_rows(out: &mut Vec<u8>, rows: &[Row<StopText>]) -> Result<(), NoMemory> {
    for (k, row) in rows.iter().enumerate() {
        put_row(out, k as u128 + 1, row)?;
    }
    put_number_line(out, b"end", rows.len() as u128)
}

fn put_cut(out: &mut Vec<u8>, side: Side, number: u32) -> Result<(), NoMemory> {
    put(out, b"cut ")?;
    match side {
        Side::Proto => {
            put(out, b"proto")?;
            put_number_word(out, u128::from(number))?;
        }
        Side::Src => {
            put(out, b"src")?;
            put_addr_word(out, number)?;
        }
        Side::Dst => {
            put(out, b"dst")?;
            put_addr_word(out, number)?;
        }
        Side::P => {
            put(out, b"p")?;
            put_number_word(out, u128::from(number))?;
        }
        Side::Q => {
            put(out, b"q")?;
            put_number_word(out, u128::from(number))?;
        }
    }
    put_end(out)
}

fn put_leaf(out: &mut Vec<u8>, told: &StopText) -> Result<(), NoMemory> {
    put(out, b"leaf")?;
    put_told(out, told)?;
    put_end(out)
}

// A tree has one leaf more than cuts.
fn put_nodes(out: &mut Vec<u8>, nodes: &[Node<StopText>]) -> Result<(), NoMemory> {
    for node in nodes {
        match node {
            Node::Cut(side, number) => put_cut(out, *side, *number)?,
            Node::Leaf(told) => put_leaf(out, told)?,
        }
    }
    put_number_line(out, b"end", (nodes.len() as u128 + 1) / 2)
}

// The text of a report about this query, from what was read of it.
fn put_report(out: &mut Vec<u8>, query: &[u8], report: &Report) -> Result<(), NoMemory> {
    match &report.shape {
        Shape::List(_) => put(out, b"vpc-report 1\n")?,
        Shape::Tree(_) => put(out, b"vpc-report 2\n")?,
    }
    put(out, query)?;
    put(out, b"\nbox")?;
    put_box_word(out, &report.sides)?;
    put_end(out)?;
    match &report.shape {
        Shape::List(rows) => put_rows(out, rows.as_slice()),
        Shape::Tree(nodes) => put_nodes(out, nodes.as_slice()),
    }
}

// Whether this text is no report, or that of what is read of it; and whether it is a report.
fn is_told(alloc: Global, n: &Network, query: &[u8], text: &[u8]) -> (bool, bool) {
    let mut out = Vec::new(alloc);
    match read_report(alloc, n, text) {
        Ok(report) => {
            let put = put_report(&mut out, query, &report);
            (put.is_ok() && out.as_slice() == text, true)
        }
        Err(_) => (true, false),
    }
}

fn tells_damage(
    rt: &impl Abort,
    alloc: Global,
    n: &Network,
    query: &[u8],
    whole: &[u8],
) -> Result<(), Fail> {
    assert_eq!(rt; is_told(alloc, n, query, whole), (true, true));
    for k in 0..whole.len() {
        for bits in [1, 2, 4, 16, 64] {
            let mut text = whole.to_vec(alloc)?;
            if let Some(c) = text.get_mut(k) {
                *c ^= bits;
            }
            let (same, _) = is_told(alloc, n, query, text.as_slice());
            assert!(rt; same, "{k} {bits}");
        }
    }
    Ok(())
}

#[test]
fn reads_damaged_reports(rt: HostRuntime) -> Result<(), Fail> {
    match read_bundle(rt.alloc(), BUNDLE.as_bytes()) {
        Ok(n) => {
            tells_damage(&rt, rt.alloc(), &n, TO_HOST, TWO_ROWS)?;
            tells_damage(&rt, rt.alloc(), &n, TO_HOST, THREE_LEAVES)?;
            tells_damage(&rt, rt.alloc(), &n, TO_NETWORK, OUTSIDE)
        }
        Err(_) => Err(Fail::new("the bundle makes no network")),
    }
}
