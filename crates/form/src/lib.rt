// A datagram's form, 01 section 2: refusals 1 and 2.
#![tactic(auto)]

ghost use Rattle.std.specs.Prelude.{◌≡◌, ◌<◌};
ghost use Rattle.refusals.specs.Refusals.{row_of};
ghost use Rattle.wire.specs.Reading.{data_row, plain_row, rows_of, form_of};

use refusals::Refusal;
use wire::{HEAD_SIZE, Header, Kind, PAYLOAD_MOST, fields};

// What section 2 allows in a DATA.
#[tactic(auto, using(laws::specs::RowsLaws::rows), unfolding(wire::specs::Reading::data_row))]
fn data_row(h: Header) -> Result<(), Refusal>
    requires { (h.flags < 256) × (h.length < 65536) }
    ensures { row_of result ≡ data_row h }
{
    if 1 < h.flags || PAYLOAD_MOST < h.length || 0 < h.credit || h.length + h.flags == 0 {
        return Err(Refusal::Form);
    }
    Ok(())
}

// What it allows in an ACK or a PROBE.
#[tactic(auto, using(laws::specs::RowsLaws::rows), unfolding(wire::specs::Reading::plain_row))]
fn plain_row(h: Header) -> Result<(), Refusal>
    ensures { row_of result ≡ plain_row h }
{
    let probe = h.kind == u64::from(Kind::Probe);
    if 0 < h.flags || 0 < h.length || probe && 0 < h.credit {
        return Err(Refusal::Form);
    }
    Ok(())
}

#[tactic(auto, using(laws::specs::RowsLaws::rows), unfolding(wire::specs::Reading::rows_of))]
fn rows(h: Header, n: u64) -> Result<(), Refusal>
    requires { (h.flags < 256) × (h.length < 65536) }
    ensures { row_of result ≡ rows_of h n }
{
    if n != HEAD_SIZE + h.length {
        return Err(Refusal::Length);
    }
    match Kind::try_from(h.kind)? {
        Kind::Data => data_row(h),
        Kind::Ack | Kind::Probe => plain_row(h),
    }
}

/// Refusal 1 or 2, where a datagram's form is wrong. Looks at its header and its length only.
#[tactic(auto, using(laws::specs::RowsLaws::rows, wire::proofs::ReadingLaws::form_rows), unfolding(wire::specs::Reading::form_of))]
pub fn form(d: &[u8]) -> Result<(), Refusal>
    ensures { row_of result ≡ form_of d.now }
{
    if (d.len() as u64) < HEAD_SIZE {
        return Err(Refusal::Length);
    }
    rows(fields(d), d.len() as u64)
}
