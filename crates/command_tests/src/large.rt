// Files of a megabyte and more, generated.
use crate::commands::{ARRIVING, CHECK, DIFF, REPLAY, TRACE, all_answer};
use crate::devices::{answers, shelf_of, words_of};
use crate::networks::{BEHIND_NAT, ONE_SUBNET};
use std::alloc::Global;
use std::process::Abort;
use std::test::Fail;
use vpc_commands::run;
use vpc_io::MemorySink;

// ---- the most bytes of a file

// Blanks after the network.
fn answers_padded(
    rt: &impl Abort,
    alloc: Global,
    length: usize,
    code: u8,
    text: &str,
) -> Result<(), Fail> {
    let mut bundle = ONE_SUBNET.as_bytes().to_vec(alloc)?;
    bundle.resize(length, b' ')?;
    let mut shelf = shelf_of(alloc, bundle.as_slice(), b"", 0)?;
    answers(rt, alloc, TRACE, &mut shelf, code, text)
}

// A second file of one long line.
fn refuses_line(
    rt: &impl Abort,
    alloc: Global,
    length: usize,
    words: &str,
    code: u8,
    text: &str,
) -> Result<(), Fail> {
    let second = vec![in alloc; b'x'; length]?;
    let mut shelf = shelf_of(alloc, ONE_SUBNET.as_bytes(), second.as_slice(), 0)?;
    answers(rt, alloc, words, &mut shelf, code, text)
}

// The most bytes of a file, and one more.
#[test]
fn takes_files_up_to_the_limit(rt: HostRuntime) -> Result<(), Fail> {
    let alloc = rt.alloc();
    let (most, more) = (67_108_864, 67_108_865);
    answers_padded(&rt, alloc, most, 0, ARRIVING)?;
    answers_padded(&rt, alloc, more, 3, "refused description TooBig\n")?;
    refuses_line(&rt, alloc, most, CHECK, 4, "refused report 1\n")?;
    refuses_line(&rt, alloc, more, CHECK, 4, "refused report TooBig\n")?;
    refuses_line(&rt, alloc, most, REPLAY, 4, "refused events 1\n")?;
    refuses_line(&rt, alloc, more, REPLAY, 4, "refused events TooBig\n")?;
    refuses_line(
        &rt,
        alloc,
        most,
        DIFF,
        3,
        "refused description after NotJson\n",
    )?;
    refuses_line(
        &rt,
        alloc,
        more,
        DIFF,
        3,
        "refused description after TooBig\n",
    )
}

// ---- bundles

// The cause against the network with one text in place of another; none where every answer stays the same.
fn tells(rt: &impl Abort, alloc: Global, from: &str, to: &str, cause: &str) -> Result<(), Fail> {
    assert!(rt; ONE_SUBNET.contains(from), "{from}");
    let bundle = ONE_SUBNET.replacen(alloc, from, to, 1)?;
    if cause.is_empty() {
        all_answer(rt, alloc, bundle.as_str())
    } else {
        refuses_description(rt, alloc, bundle.as_str(), cause)
    }
}

fn refuses_description(
    rt: &impl Abort,
    alloc: Global,
    bundle: &str,
    cause: &str,
) -> Result<(), Fail> {
    let mut shelf = shelf_of(alloc, bundle.as_bytes(), b"", 0)?;
    let text = format!(in alloc; "refused description {cause}\n")?;
    answers(rt, alloc, TRACE, &mut shelf, 3, text.as_str())
}

fn tells_ranges(rt: &impl Abort, alloc: Global, more: usize, cause: &str) -> Result<(), Fail> {
    let ranges = "{\"CidrIp\":\"0.0.0.0/0\"},".repeat(alloc, more)?;
    let all = format!(in alloc; "\"IpRanges\":[{ranges}")?;
    tells(rt, alloc, "\"IpRanges\":[", all.as_str(), cause)
}

// One range stands there already.
#[test]
fn refuses_too_many_rows(rt: HostRuntime) -> Result<(), Fail> {
    tells_ranges(&rt, rt.alloc(), 99_999, "")?;
    tells_ranges(&rt, rt.alloc(), 100_000, "TooManyRows SecurityGroups")
}

// So many interfaces without an address.
fn many_interfaces(alloc: Global, count: u32) -> Result<String, Fail> {
    let mut interfaces = String::from_str(alloc, "\"NetworkInterfaces\":[")?;
    for k in 0..count {
        write!(
            interfaces,
            "{{\"NetworkInterfaceId\":\"eni-{k}\",\"SubnetId\":\"subnet-a\"}},"
        )?;
    }
    Ok(interfaces)
}

const LAST_INTERFACES: [(&str, &str); 3] = [
    ("", ""),
    (
        r#"{"NetworkInterfaceId":"eni-39999","SubnetId":"subnet-a"},"#,
        "DuplicateId eni-39999",
    ),
    (
        r#"{"NetworkInterfaceId":"eni-40000","SubnetId":"subnet-b"},"#,
        "MissingReference eni-40000 subnet-b",
    ),
];

fn tells_interfaces(rt: &impl Abort, alloc: Global, last: &str, cause: &str) -> Result<(), Fail> {
    let mut all = many_interfaces(alloc, 40_000)?;
    all.push_str(last)?;
    tells(rt, alloc, "\"NetworkInterfaces\":[", all.as_str(), cause)
}

// More than two megabytes.
#[test]
fn answers_about_large_bundles(rt: HostRuntime) -> Result<(), Fail> {
    for (last, cause) in &LAST_INTERFACES {
        tells_interfaces(&rt, rt.alloc(), last, cause)?;
    }
    Ok(())
}

// ---- reports

// A row for each source port, the last of this phase: more than one megabyte.
fn large_report(alloc: Global, last: &str) -> Result<String, Fail> {
    let ends = "6-6 10.0.1.10-10.0.1.10 10.0.1.20-10.0.1.20";
    let mut report = format!(in alloc;
        "vpc-report 1\nquery from eni-a to eni-b\nbox {ends} 10001-22000 80-80\n"
    )?;
    for port in 10_001..22_000u32 {
        let number = port - 10_000;
        write!(
            report,
            "row {number} request GroupsIn eni-b - {ends} {port}-{port} 80-80\n"
        )?;
    }
    write!(
        report,
        "row 12000 {last} GroupsIn eni-b - {ends} 22000-22000 80-80\nend 12000\n"
    )?;
    Ok(report)
}

fn checks_report(
    rt: &impl Abort,
    alloc: Global,
    last: &str,
    code: u8,
    text: &str,
) -> Result<(), Fail> {
    let report = large_report(alloc, last)?;
    assert!(rt; report.len() > 1_048_576);
    let mut shelf = shelf_of(alloc, ONE_SUBNET.as_bytes(), report.as_bytes(), 0)?;
    answers(rt, alloc, CHECK, &mut shelf, code, text)
}

#[test]
fn checks_large_reports(rt: HostRuntime) -> Result<(), Fail> {
    checks_report(&rt, rt.alloc(), "request", 0, "yes\n")?;
    let untrue = "no untrue 12000 tcp 10.0.1.10 10.0.1.20 22000 80 request GroupsIn eni-b -\n";
    checks_report(&rt, rt.alloc(), "reply", 1, untrue)
}

// ---- events

// 55,000 opens of a host to one server, which fill the gateway, and four packets more: a new open, an answer, an open
// that is known, and one to another port.
fn full_gateway(alloc: Global) -> Result<String, Fail> {
    let mut events = String::new(alloc);
    for port in 1024..56_025u32 {
        write!(
            events,
            "open from eni-a tcp 10.0.1.10 198.51.100.7 {port} 443\n"
        )?;
    }
    events.push_str("answer from internet tcp 198.51.100.7 203.0.113.5 443 1024\n")?;
    events.push_str("open from eni-a tcp 10.0.1.10 198.51.100.7 1024 443\n")?;
    events.push_str("open from eni-a tcp 10.0.1.10 198.51.100.7 56024 444\n")?;
    Ok(events)
}

// Each open keeps its port.
fn outcomes(alloc: Global) -> Result<String, Fail> {
    let mut text = String::new(alloc);
    for number in 1..55_001u32 {
        let port = number.saturating_add(1023);
        write!(
            text,
            "event {number} arrived internet tcp 203.0.113.5 198.51.100.7 {port} 443\n"
        )?;
    }
    text.push_str(
        "\
event 55001 stopped NatFull nat-1 -
event 55002 arrived eni-a tcp 198.51.100.7 10.0.1.10 443 1024
event 55003 arrived internet tcp 203.0.113.5 198.51.100.7 1024 443
event 55004 arrived internet tcp 203.0.113.5 198.51.100.7 56024 444
",
    )?;
    Ok(text)
}

fn replays(rt: &impl Abort, alloc: Global, events: &[u8], text: &[u8]) -> Result<(), Fail> {
    let words = words_of(alloc, REPLAY)?;
    let mut shelf = shelf_of(alloc, BEHIND_NAT.as_bytes(), events, 0)?;
    let mut out = MemorySink::of(alloc, Vec::new(alloc), 8_388_608, 8_388_608)?;
    let status = run(alloc, words.as_slice(), &mut shelf, &mut out);
    assert_eq!(rt; status.code(), 0);
    assert!(rt; out.bytes() == text);
    Ok(())
}

#[test]
fn a_gateway_keeps_55_000_translations(rt: HostRuntime) -> Result<(), Fail> {
    let events = full_gateway(rt.alloc())?;
    let text = outcomes(rt.alloc())?;
    replays(&rt, rt.alloc(), events.as_bytes(), text.as_bytes())
}

// ---- more rows than are read

// A report of so many rows, of one box each time: the grammar asks no more of a row.
fn report_of_rows(alloc: Global, rows: u32) -> Result<String, Fail> {
    let part = "6-6 10.0.1.10-10.0.1.10 10.0.1.20-10.0.1.20 0-65535 80-80";
    let mut report = format!(in alloc; "vpc-report 1\nquery from eni-a to eni-b\nbox {part}\n")?;
    for k in 0..rows {
        let number = k.saturating_add(1);
        write!(report, "row {number} request GroupsIn eni-b - {part}\n")?;
    }
    write!(report, "end {rows}\n")?;
    Ok(report)
}

fn checks_rows(
    rt: &impl Abort,
    alloc: Global,
    rows: u32,
    code: u8,
    text: &str,
) -> Result<(), Fail> {
    let report = report_of_rows(alloc, rows)?;
    let mut shelf = shelf_of(alloc, ONE_SUBNET.as_bytes(), report.as_bytes(), 0)?;
    answers(rt, alloc, CHECK, &mut shelf, code, text)
}

// As many rows as are read; the line of the first row too many is named.
const ROWS: [(u32, u8, &str); 3] = [
    (20_000, 1, "no overlap 1 2\n"),
    (20_001, 4, "refused report TooManyBoxes 20004\n"),
    (20_002, 4, "refused report TooManyBoxes 20004\n"),
];

#[test]
fn refuses_a_row_too_many(rt: HostRuntime) -> Result<(), Fail> {
    for (rows, code, text) in &ROWS {
        checks_rows(&rt, rt.alloc(), *rows, *code, text)?;
    }
    Ok(())
}
