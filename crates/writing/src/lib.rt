// A datagram's header, 01 section 2, written.
#![tactic(auto)]

ghost use Rattle.std.specs.Prelude.{◌≡◌, length};
ghost use Rattle.wire.specs.Datagram.{head_size, head_of};

use wire::Header;

/// The header, in all of out: of each number the lowest bytes, as many as it has in a datagram, the highest first.
pub fn write(out: &mut [u8], h: Header)
    requires { length out.old ≡ head_size }
    ensures { out.new ≡ head_of h }
{
    out[0..1].copy_from_slice(&h.kind.to_be_bytes()[7..]);
    out[1..2].copy_from_slice(&h.flags.to_be_bytes()[7..]);
    out[2..4].copy_from_slice(&h.length.to_be_bytes()[6..]);
    out[4..12].copy_from_slice(&h.epoch.to_be_bytes());
    out[12..20].copy_from_slice(&h.number.to_be_bytes());
    out[20..28].copy_from_slice(&h.position.to_be_bytes());
    out[28..32].copy_from_slice(&h.credit.to_be_bytes()[4..]);
}
