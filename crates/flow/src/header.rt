// A login packet and its answer: tests of both ends on the packet and its header.
ghost use Rattle.std.specs.Prelude.{◌||◌, ◌≡◌};
ghost use Rattle.ftd.specs.Packet.{not_one_packet, no_message_packet};
ghost use Rattle.flow.specs.Serving.{no_login, not_zero};

use ftd::packet::{Chain, Header, no_message_packet, not_one_packet};

// Refusal 12: not one packet, or no message packet.
pub(crate) fn not_one_message(p: &[u8]) -> bool
    ensures { result ≡ (not_one_packet p.now || no_message_packet p.now) }
{
    not_one_packet(p) || no_message_packet(p)
}

// Refusal 10, of the header: another TID than 0x0016, or the chain not S.
pub(crate) fn no_login(h: Header) -> bool
    ensures { result ≡ no_login h }
{
    h.tid != 0x0016 || !matches!(h.chain, Chain::Single)
}

// Refusal 16, of a login: series or number is not 0.
pub(crate) fn not_zero(h: Header) -> bool
    ensures { result ≡ not_zero h }
{
    h.series != 0 || h.number != 0
}
