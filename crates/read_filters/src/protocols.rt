// Protocols as rules name them.
ghost use Rattle.std.specs.Prelude.{◌≡◌};
ghost use Rattle.read_filters.specs.Protocols.{numbered_protocol, named_protocol};

use prefix_text::read_number;

/// The protocol's number, or `None` for all, of an ACL's `Protocol`.
pub fn numbered_protocol(text: &str) -> Option<Option<u8>>
    ensures { result ≡ numbered_protocol text.now }
{
    if text == "-1" {
        return Some(None);
    }
    match read_number(text.as_bytes(), 255) {
        Some(number) => Some(Some(number as u8)),
        None => None,
    }
}

/// The protocol's number, or `None` for all, of a permission's `IpProtocol`.
pub fn named_protocol(text: &str) -> Option<Option<u8>>
    ensures { result ≡ named_protocol text.now }
{
    if text == "tcp" {
        Some(Some(6))
    } else if text == "udp" {
        Some(Some(17))
    } else if text == "icmp" {
        Some(Some(1))
    } else if text == "icmpv6" {
        Some(Some(58))
    } else {
        numbered_protocol(text)
    }
}
