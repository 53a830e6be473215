// Ranges of q that ACL entries and permissions tell.
ghost use Rattle.std.specs.Prelude.{◌≡◌, ◌≤◌, pos, negsuc, IfSome};
ghost use Rattle.serde_json.specs.View.{view};
ghost use Rattle.json_fields.specs.FieldFault.{Reads};
ghost use Rattle.json_fields.specs.Fields.{part_of};
ghost use Rattle.json_fields.specs.Paths.{at_member};
ghost use Rattle.read_filters.specs.Ranges.{kind_of, every_q, port_range, message_range, number_up_to, range_of};

use json_fields::{FieldFault, Path, number_if};
use serde_json::Value;
use std::alloc::Global;

/// A range of q, both ends included.
#[derive(Clone, Copy, Debug, PartialEq, Eq)]
pub struct QRange {
    pub first: u16,
    pub last: u16,
}

/// What q holds under a protocol.
#[derive(Clone, Copy, Debug, PartialEq, Eq)]
pub enum QKind {
    /// Destination ports.
    Ports,
    /// ICMP messages: 256 times the type plus the code.
    Messages,
    /// Nothing that rules tell apart.
    Anything,
}

pub fn kind_of(proto: Option<u8>) -> QKind
    ensures { result ≡ kind_of proto }
{
    match proto {
        Some(6) | Some(17) => QKind::Ports,
        Some(1) => QKind::Messages,
        _ => QKind::Anything,
    }
}

pub const EVERY_Q: QRange = QRange {
    first: 0,
    last: 65535,
};

fn port_range(first: Option<u16>, last: Option<u16>) -> QRange
    ensures { result ≡ port_range first last }
{
    QRange {
        first: first.unwrap_or(0),
        last: last.unwrap_or(65535),
    }
}

fn message_range(kind: Option<u8>, code: Option<u8>) -> QRange
    ensures { result ≡ message_range kind code }
{
    let Some(kind) = kind else {
        return EVERY_Q;
    };
    let least = u16::from(kind) * 256;
    match code {
        Some(code) => QRange {
            first: least + u16::from(code),
            last: least + u16::from(code),
        },
        None => QRange {
            first: least,
            last: least + 255,
        },
    }
}

fn port_if(alloc: Global, row: &Value, path: &Path, field: &str) -> Result<Option<u16>, FieldFault>
    ensures { Reads (λ x. x) (number_up_to 65535 (view row.now) path.now field.now) result }
{
    match number_if(alloc, row, path, field, -1, 65535)? {
        Some(number) if number >= 0 => Ok(Some(number as u16)),
        _ => Ok(None),
    }
}

// A type or a code.
fn octet_if(alloc: Global, row: &Value, path: &Path, field: &str) -> Result<Option<u8>, FieldFault>
    ensures { Reads (λ x. x) (number_up_to 255 (view row.now) path.now field.now) result }
{
    match number_if(alloc, row, path, field, -1, 255)? {
        Some(number) if number >= 0 => Ok(Some(number as u8)),
        _ => Ok(None),
    }
}

/// The members of a row that tell a range: of the first and the last port, or of the ICMP type and code.
#[derive(Clone, Copy)]
pub struct RangeFields<'a> {
    pub first: &'a str,
    pub last: &'a str,
}

/// The range that two members of a row tell. A number that is absent or -1 leaves its end open. Under protocols with
/// neither ports nor messages nothing is read.
pub fn range_of(
    alloc: Global,
    kind: QKind,
    row: &Value,
    path: &Path,
    fields: &RangeFields,
) -> Result<QRange, FieldFault>
    ensures { Reads (λ x. x) (range_of kind (view row.now) path.now fields.now.first.now fields.now.last.now)
        result }
{
    match kind {
        QKind::Ports => {
            let from = port_if(alloc, row, path, fields.first)?;
            let to = port_if(alloc, row, path, fields.last)?;
            Ok(port_range(from, to))
        }
        QKind::Messages => {
            let kind = octet_if(alloc, row, path, fields.first)?;
            let code = octet_if(alloc, row, path, fields.last)?;
            Ok(message_range(kind, code))
        }
        QKind::Anything => Ok(EVERY_Q),
    }
}

/// The range that two members of an object within a row tell. An object that is absent has no members.
#[tactic(auto, using(crate::proofs::Untold::untold))]
pub fn range_within(
    alloc: Global,
    kind: QKind,
    row: &Value,
    path: &Path,
    part: &str,
    fields: &RangeFields,
) -> Result<QRange, FieldFault>
    ensures { Reads (λ x. x) (range_of kind (part_of (view row.now) part.now)
        (at_member path.now part.now) fields.now.first.now fields.now.last.now) result }
{
    match row.get(part) {
        Some(numbers) => range_of(alloc, kind, numbers, &path.member(part), fields),
        None => Ok(EVERY_Q),
    }
}
